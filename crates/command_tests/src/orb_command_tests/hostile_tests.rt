//! Whatever a client sends, `orb pipe` answers by the rules: each refusal in its order, given where a reply is due; bands, flags, targets,
//! other messages, and what breaks a rule. The rows were written by an encoder of their own, from the rules.

use super::rows::{EMPTY, Row, first_wrong};

/// Lanes 10 and 20; the priorities 0 to 99 have native ones; `ping` under CLIENT_PROPAGATED at 10, and `decl` under SERVER_DECLARED at 20.
const CONFIG: &[u8] =
    b"map = { kind = \"linear\", corba_low = 0, corba_high = 99, native_low = 1, native_high = 99 }\npool = { lanes = [{ priority = 10, static = 1, dynamic = 0 }, { priority = 20, static = 1, dynamic = 0 }] }\nadapter = [{ name = \"prop\", model = \"CLIENT_PROPAGATED\", priority = 10 }, { name = \"decl\", model = \"SERVER_DECLARED\", priority = 20 }]\nobject = [{ key = \"ping\", adapter = \"prop\", interface = \"IDL:Orb/Ping:1.0\" }, { key = \"decl\", adapter = \"decl\", interface = \"IDL:Orb/Ping:1.0\" }]\n";

/// The pipe by this configuration.
const CONFIGURED: Row<'static> = Row {
    words: &["pipe", "--config", "c"],
    files: &[("c", CONFIG)],
    ..EMPTY
};

/// Each refusal: given where a reply is due, early or late, and untold where none is.
const REFUSALS: &[Row<'static>] = &[
    Row {
        story: "no key, told and untold",
        input: b"GIOP\x01\x02\0\0\0\0\0\x24\0\0\0\x01\x03\0\0\0\0\x01\0\0\0\0\0\0\0\0\0\0\0\0\0\x08current\0\0\0\0\0GIOP\x01\x02\0\0\0\0\0\x24\0\0\0\x02\x01\0\0\0\0\x01\0\0\0\0\0\0\0\0\0\0\0\0\0\x08current\0\0\0\0\0GIOP\x01\x02\0\0\0\0\0\x24\0\0\0\x03\0\0\0\0\0\x01\0\0\0\0\0\0\0\0\0\0\0\0\0\x08current\0\0\0\0\0",
        output: b"GIOP\x01\x02\0\x01\0\0\0\x0e\0\0\0\x01\0\0\0\x05\0\0\0\0\0\0GIOP\x01\x02\0\x01\0\0\0\x0e\0\0\0\x02\0\0\0\x05\0\0\0\0\0\0",
        ..CONFIGURED
    },
    Row {
        story: "no key by index, told and untold",
        input: b"GIOP\x01\x02\0\0\0\0\0\x2c\0\0\0\x01\x03\0\0\0\0\x02\0\0\0\0\0\0\0\0\0\x01\0\0\0\0\0\0\0\0\0\0\0\x08current\0\0\0\0\0GIOP\x01\x02\0\0\0\0\0\x2c\0\0\0\x02\x01\0\0\0\0\x02\0\0\0\0\0\0\0\0\0\x01\0\0\0\0\0\0\0\0\0\0\0\x08current\0\0\0\0\0GIOP\x01\x02\0\0\0\0\0\x2c\0\0\0\x03\0\0\0\0\0\x02\0\0\0\0\0\0\0\0\0\x01\0\0\0\0\0\0\0\0\0\0\0\x08current\0\0\0\0\0",
        output: b"GIOP\x01\x02\0\x01\0\0\0\x0e\0\0\0\x01\0\0\0\x05\0\0\0\0\0\0GIOP\x01\x02\0\x01\0\0\0\x0e\0\0\0\x02\0\0\0\x05\0\0\0\0\0\0",
        ..CONFIGURED
    },
    Row {
        story: "a priority without a reading, told and untold",
        input: b"GIOP\x01\x02\0\0\0\0\0\x2c\0\0\0\x01\x03\0\0\0\0\0\0\0\0\0\0\x04ping\0\0\0\x08current\0\0\0\0\x01\0\0\0\x0a\0\0\0\0GIOP\x01\x02\0\0\0\0\0\x2c\0\0\0\x02\x01\0\0\0\0\0\0\0\0\0\0\x04ping\0\0\0\x08current\0\0\0\0\x01\0\0\0\x0a\0\0\0\0GIOP\x01\x02\0\0\0\0\0\x2c\0\0\0\x03\0\0\0\0\0\0\0\0\0\0\0\x04ping\0\0\0\x08current\0\0\0\0\x01\0\0\0\x0a\0\0\0\0",
        output: b"GIOP\x01\x02\0\x01\0\0\0\x38\0\0\0\x01\0\0\0\x02\0\0\0\0\0\0\0\x1eIDL:omg.org/CORBA/MARSHAL:1.0\0\0\0\0\0\0\x02\0\0\0\x01GIOP\x01\x02\0\x01\0\0\0\x38\0\0\0\x02\0\0\0\x02\0\0\0\0\0\0\0\x1eIDL:omg.org/CORBA/MARSHAL:1.0\0\0\0\0\0\0\x02\0\0\0\x01",
        ..CONFIGURED
    },
    Row {
        story: "a negative priority, told and untold",
        input: b"GIOP\x01\x02\0\0\0\0\0\x30\0\0\0\x01\x03\0\0\0\0\0\0\0\0\0\0\x04ping\0\0\0\x08current\0\0\0\0\x01\0\0\0\x0a\0\0\0\x04\0\0\xff\xffGIOP\x01\x02\0\0\0\0\0\x30\0\0\0\x02\x01\0\0\0\0\0\0\0\0\0\0\x04ping\0\0\0\x08current\0\0\0\0\x01\0\0\0\x0a\0\0\0\x04\0\0\xff\xffGIOP\x01\x02\0\0\0\0\0\x30\0\0\0\x03\0\0\0\0\0\0\0\0\0\0\0\x04ping\0\0\0\x08current\0\0\0\0\x01\0\0\0\x0a\0\0\0\x04\0\0\xff\xff",
        output: b"GIOP\x01\x02\0\x01\0\0\0\x38\0\0\0\x01\0\0\0\x02\0\0\0\0\0\0\0\x1eIDL:omg.org/CORBA/MARSHAL:1.0\0\0\0\0\0\0\x02\0\0\0\x01GIOP\x01\x02\0\x01\0\0\0\x38\0\0\0\x02\0\0\0\x02\0\0\0\0\0\0\0\x1eIDL:omg.org/CORBA/MARSHAL:1.0\0\0\0\0\0\0\x02\0\0\0\x01",
        ..CONFIGURED
    },
    Row {
        story: "an unknown key, told and untold",
        input: b"GIOP\x01\x02\0\0\0\0\0\x24\0\0\0\x01\x03\0\0\0\0\0\0\0\0\0\0\x04pong\0\0\0\x08current\0\0\0\0\0GIOP\x01\x02\0\0\0\0\0\x24\0\0\0\x02\x01\0\0\0\0\0\0\0\0\0\0\x04pong\0\0\0\x08current\0\0\0\0\0GIOP\x01\x02\0\0\0\0\0\x24\0\0\0\x03\0\0\0\0\0\0\0\0\0\0\0\x04pong\0\0\0\x08current\0\0\0\0\0",
        output: b"GIOP\x01\x02\0\x01\0\0\0\x40\0\0\0\x01\0\0\0\x02\0\0\0\0\0\0\0\x27IDL:omg.org/CORBA/OBJECT_NOT_EXIST:1.0\0\0\0\0\0\x01\0\0\0\x01GIOP\x01\x02\0\x01\0\0\0\x40\0\0\0\x02\0\0\0\x02\0\0\0\0\0\0\0\x27IDL:omg.org/CORBA/OBJECT_NOT_EXIST:1.0\0\0\0\0\0\x01\0\0\0\x01",
        ..CONFIGURED
    },
    Row {
        story: "a bind without a band, told and untold",
        input: b"GIOP\x01\x02\0\0\0\0\0\x30\0\0\0\x01\x03\0\0\0\0\0\0\0\0\0\0\x04ping\0\0\0\x14_bind_priority_band\0\0\0\0\0GIOP\x01\x02\0\0\0\0\0\x30\0\0\0\x02\x01\0\0\0\0\0\0\0\0\0\0\x04ping\0\0\0\x14_bind_priority_band\0\0\0\0\0GIOP\x01\x02\0\0\0\0\0\x30\0\0\0\x03\0\0\0\0\0\0\0\0\0\0\0\x04ping\0\0\0\x14_bind_priority_band\0\0\0\0\0",
        output: b"GIOP\x01\x02\0\x01\0\0\0\x38\0\0\0\x01\0\0\0\x02\0\0\0\0\0\0\0\x1eIDL:omg.org/CORBA/MARSHAL:1.0\0\0\0\0\0\0\x02\0\0\0\x01GIOP\x01\x02\0\x01\0\0\0\x38\0\0\0\x02\0\0\0\x02\0\0\0\0\0\0\0\x1eIDL:omg.org/CORBA/MARSHAL:1.0\0\0\0\0\0\0\x02\0\0\0\x01",
        ..CONFIGURED
    },
    Row {
        story: "a band that falls, told and untold",
        input: b"GIOP\x01\x02\0\0\0\0\0\x3e\0\0\0\x01\x03\0\0\0\0\0\0\0\0\0\0\x04ping\0\0\0\x14_bind_priority_band\0\0\0\0\x01\0\0\0\x0b\0\0\0\x06\0\0\0\x14\0\x0aGIOP\x01\x02\0\0\0\0\0\x3e\0\0\0\x02\x01\0\0\0\0\0\0\0\0\0\0\x04ping\0\0\0\x14_bind_priority_band\0\0\0\0\x01\0\0\0\x0b\0\0\0\x06\0\0\0\x14\0\x0aGIOP\x01\x02\0\0\0\0\0\x3e\0\0\0\x03\0\0\0\0\0\0\0\0\0\0\0\x04ping\0\0\0\x14_bind_priority_band\0\0\0\0\x01\0\0\0\x0b\0\0\0\x06\0\0\0\x14\0\x0a",
        output: b"GIOP\x01\x02\0\x01\0\0\0\x38\0\0\0\x01\0\0\0\x02\0\0\0\0\0\0\0\x1eIDL:omg.org/CORBA/MARSHAL:1.0\0\0\0\0\0\0\x02\0\0\0\x01GIOP\x01\x02\0\x01\0\0\0\x38\0\0\0\x02\0\0\0\x02\0\0\0\0\0\0\0\x1eIDL:omg.org/CORBA/MARSHAL:1.0\0\0\0\0\0\0\x02\0\0\0\x01",
        ..CONFIGURED
    },
    Row {
        story: "a band without a lane, told and untold",
        input: b"GIOP\x01\x02\0\0\0\0\0\x3e\0\0\0\x01\x03\0\0\0\0\0\0\0\0\0\0\x04ping\0\0\0\x14_bind_priority_band\0\0\0\0\x01\0\0\0\x0b\0\0\0\x06\0\0\0\x0b\0\x13GIOP\x01\x02\0\0\0\0\0\x3e\0\0\0\x02\x01\0\0\0\0\0\0\0\0\0\0\x04ping\0\0\0\x14_bind_priority_band\0\0\0\0\x01\0\0\0\x0b\0\0\0\x06\0\0\0\x0b\0\x13GIOP\x01\x02\0\0\0\0\0\x3e\0\0\0\x03\0\0\0\0\0\0\0\0\0\0\0\x04ping\0\0\0\x14_bind_priority_band\0\0\0\0\x01\0\0\0\x0b\0\0\0\x06\0\0\0\x0b\0\x13",
        output: b"GIOP\x01\x02\0\x01\0\0\0\x3c\0\0\0\x01\0\0\0\x02\0\0\0\0\0\0\0\x21IDL:omg.org/CORBA/INV_POLICY:1.0\0\0\0\0\0\0\0\x05\0\0\0\x01GIOP\x01\x02\0\x01\0\0\0\x3c\0\0\0\x02\0\0\0\x02\0\0\0\0\0\0\0\x21IDL:omg.org/CORBA/INV_POLICY:1.0\0\0\0\0\0\0\0\x05\0\0\0\x01",
        ..CONFIGURED
    },
    Row {
        story: "a priority without a native one, told and untold",
        input: b"GIOP\x01\x02\0\0\0\0\0\x30\0\0\0\x01\x03\0\0\0\0\0\0\0\0\0\0\x04ping\0\0\0\x08current\0\0\0\0\x01\0\0\0\x0a\0\0\0\x04\0\0\x01\xf4GIOP\x01\x02\0\0\0\0\0\x30\0\0\0\x02\x01\0\0\0\0\0\0\0\0\0\0\x04ping\0\0\0\x08current\0\0\0\0\x01\0\0\0\x0a\0\0\0\x04\0\0\x01\xf4GIOP\x01\x02\0\0\0\0\0\x30\0\0\0\x03\0\0\0\0\0\0\0\0\0\0\0\x04ping\0\0\0\x08current\0\0\0\0\x01\0\0\0\x0a\0\0\0\x04\0\0\x01\xf4",
        output: b"GIOP\x01\x02\0\x01\0\0\0\x40\0\0\0\x01\0\0\0\x02\0\0\0\0\0\0\0\x26IDL:omg.org/CORBA/DATA_CONVERSION:1.0\0\0\0\0\0\0\x01\0\0\0\x01GIOP\x01\x02\0\x01\0\0\0\x40\0\0\0\x02\0\0\0\x02\0\0\0\0\0\0\0\x26IDL:omg.org/CORBA/DATA_CONVERSION:1.0\0\0\0\0\0\0\x01\0\0\0\x01",
        ..CONFIGURED
    },
    Row {
        story: "a priority without a lane, told and untold",
        input: b"GIOP\x01\x02\0\0\0\0\0\x30\0\0\0\x01\x03\0\0\0\0\0\0\0\0\0\0\x04ping\0\0\0\x08current\0\0\0\0\x01\0\0\0\x0a\0\0\0\x04\0\0\0\x0cGIOP\x01\x02\0\0\0\0\0\x30\0\0\0\x02\x01\0\0\0\0\0\0\0\0\0\0\x04ping\0\0\0\x08current\0\0\0\0\x01\0\0\0\x0a\0\0\0\x04\0\0\0\x0cGIOP\x01\x02\0\0\0\0\0\x30\0\0\0\x03\0\0\0\0\0\0\0\0\0\0\0\x04ping\0\0\0\x08current\0\0\0\0\x01\0\0\0\x0a\0\0\0\x04\0\0\0\x0c",
        output: b"GIOP\x01\x02\0\x01\0\0\0\x3c\0\0\0\x01\0\0\0\x02\0\0\0\0\0\0\0\x21IDL:omg.org/CORBA/INV_POLICY:1.0\0\0\0\0\0\0\0\x03\0\0\0\x01GIOP\x01\x02\0\x01\0\0\0\x3c\0\0\0\x02\0\0\0\x02\0\0\0\0\0\0\0\x21IDL:omg.org/CORBA/INV_POLICY:1.0\0\0\0\0\0\0\0\x03\0\0\0\x01",
        ..CONFIGURED
    },
];

/// Which refusal goes before which, which context counts, and what a band is bound for.
const PRECEDENCE: &[Row<'static>] = &[
    Row {
        story: "no key goes before all",
        input: b"GIOP\x01\x02\0\0\0\0\0\x2c\0\0\0\x01\x03\0\0\0\0\x01\0\0\0\0\0\0\0\0\0\0\0\0\0\x08current\0\0\0\0\x01\0\0\0\x0a\0\0\0\0",
        output: b"GIOP\x01\x02\0\x01\0\0\0\x0e\0\0\0\x01\0\0\0\x05\0\0\0\0\0\0",
        ..CONFIGURED
    },
    Row {
        story: "a context goes before the key",
        input: b"GIOP\x01\x02\0\0\0\0\0\x2c\0\0\0\x01\x03\0\0\0\0\0\0\0\0\0\0\x04pong\0\0\0\x08current\0\0\0\0\x01\0\0\0\x0a\0\0\0\0",
        output: b"GIOP\x01\x02\0\x01\0\0\0\x38\0\0\0\x01\0\0\0\x02\0\0\0\0\0\0\0\x1eIDL:omg.org/CORBA/MARSHAL:1.0\0\0\0\0\0\0\x02\0\0\0\x01",
        ..CONFIGURED
    },
    Row {
        story: "the key goes before the bind",
        input: b"GIOP\x01\x02\0\0\0\0\0\x30\0\0\0\x01\x03\0\0\0\0\0\0\0\0\0\0\x04pong\0\0\0\x14_bind_priority_band\0\0\0\0\0",
        output: b"GIOP\x01\x02\0\x01\0\0\0\x40\0\0\0\x01\0\0\0\x02\0\0\0\0\0\0\0\x27IDL:omg.org/CORBA/OBJECT_NOT_EXIST:1.0\0\0\0\0\0\x01\0\0\0\x01",
        ..CONFIGURED
    },
    Row {
        story: "the native priority goes before the lane",
        input: b"GIOP\x01\x02\0\0\0\0\0\x30\0\0\0\x01\x03\0\0\0\0\0\0\0\0\0\0\x04ping\0\0\0\x08current\0\0\0\0\x01\0\0\0\x0a\0\0\0\x04\0\0\x01\xf5",
        output: b"GIOP\x01\x02\0\x01\0\0\0\x40\0\0\0\x01\0\0\0\x02\0\0\0\0\0\0\0\x26IDL:omg.org/CORBA/DATA_CONVERSION:1.0\0\0\0\0\0\0\x01\0\0\0\x01",
        ..CONFIGURED
    },
    Row {
        story: "the first context of an id counts",
        input: b"GIOP\x01\x02\0\0\0\0\0\x38\0\0\0\x01\x03\0\0\0\0\0\0\0\0\0\0\x04ping\0\0\0\x08current\0\0\0\0\x02\0\0\0\x0a\0\0\0\x04\0\0\0\x14\0\0\0\x0a\0\0\0\0",
        output: b"GIOP\x01\x02\0\x01\0\0\0\x0e\0\0\0\x01\0\0\0\0\0\0\0\0\0\x14",
        ..CONFIGURED
    },
    Row {
        story: "other contexts are ignored",
        input: b"GIOP\x01\x02\0\0\0\0\0\x38\0\0\0\x01\x03\0\0\0\0\0\0\0\0\0\0\x04ping\0\0\0\x08current\0\0\0\0\x02\0\0\0\x63\0\0\0\0\0\0\0\x0a\0\0\0\x04\0\0\0\x14",
        output: b"GIOP\x01\x02\0\x01\0\0\0\x0e\0\0\0\x01\0\0\0\0\0\0\0\0\0\x14",
        ..CONFIGURED
    },
    Row {
        story: "a band is bound for what comes behind",
        input: b"GIOP\x01\x02\0\0\0\0\0\x24\0\0\0\x01\x03\0\0\0\0\0\0\0\0\0\0\x04ping\0\0\0\x08current\0\0\0\0\0GIOP\x01\x02\0\0\0\0\0\x3e\0\0\0\x02\x03\0\0\0\0\0\0\0\0\0\0\x04ping\0\0\0\x14_bind_priority_band\0\0\0\0\x01\0\0\0\x0b\0\0\0\x06\0\0\0\x0f\0\x19GIOP\x01\x02\0\0\0\0\0\x24\0\0\0\x03\x03\0\0\0\0\0\0\0\0\0\0\x04ping\0\0\0\x08current\0\0\0\0\0GIOP\x01\x02\0\0\0\0\0\x30\0\0\0\x04\x03\0\0\0\0\0\0\0\0\0\0\x04ping\0\0\0\x08current\0\0\0\0\x01\0\0\0\x0a\0\0\0\x04\0\0\0\x14",
        output: b"GIOP\x01\x02\0\x01\0\0\0\x0e\0\0\0\x01\0\0\0\0\0\0\0\0\0\x0aGIOP\x01\x02\0\x01\0\0\0\x0c\0\0\0\x02\0\0\0\0\0\0\0\0GIOP\x01\x02\0\x01\0\0\0\x3c\0\0\0\x03\0\0\0\x02\0\0\0\0\0\0\0\x21IDL:omg.org/CORBA/INV_POLICY:1.0\0\0\0\0\0\0\0\x04\0\0\0\x01GIOP\x01\x02\0\x01\0\0\0\x0e\0\0\0\x04\0\0\0\0\0\0\0\0\0\x14",
        ..CONFIGURED
    },
    Row {
        story: "a second bind replaces the first",
        input: b"GIOP\x01\x02\0\0\0\0\0\x3e\0\0\0\x01\x03\0\0\0\0\0\0\0\0\0\0\x04ping\0\0\0\x14_bind_priority_band\0\0\0\0\x01\0\0\0\x0b\0\0\0\x06\0\0\0\x0f\0\x19GIOP\x01\x02\0\0\0\0\0\x3e\0\0\0\x02\x03\0\0\0\0\0\0\0\0\0\0\x04ping\0\0\0\x14_bind_priority_band\0\0\0\0\x01\0\0\0\x0b\0\0\0\x06\0\0\0\x05\0\x0aGIOP\x01\x02\0\0\0\0\0\x24\0\0\0\x03\x03\0\0\0\0\0\0\0\0\0\0\x04ping\0\0\0\x08current\0\0\0\0\0",
        output: b"GIOP\x01\x02\0\x01\0\0\0\x0c\0\0\0\x01\0\0\0\0\0\0\0\0GIOP\x01\x02\0\x01\0\0\0\x0c\0\0\0\x02\0\0\0\0\0\0\0\0GIOP\x01\x02\0\x01\0\0\0\x0e\0\0\0\x03\0\0\0\0\0\0\0\0\0\x0a",
        ..CONFIGURED
    },
    Row {
        story: "a refused bind leaves the band",
        input: b"GIOP\x01\x02\0\0\0\0\0\x3e\0\0\0\x01\x03\0\0\0\0\0\0\0\0\0\0\x04ping\0\0\0\x14_bind_priority_band\0\0\0\0\x01\0\0\0\x0b\0\0\0\x06\0\0\0\x0f\0\x19GIOP\x01\x02\0\0\0\0\0\x3e\0\0\0\x02\x03\0\0\0\0\0\0\0\0\0\0\x04ping\0\0\0\x14_bind_priority_band\0\0\0\0\x01\0\0\0\x0b\0\0\0\x06\0\0\0\x0b\0\x13GIOP\x01\x02\0\0\0\0\0\x24\0\0\0\x03\x03\0\0\0\0\0\0\0\0\0\0\x04ping\0\0\0\x08current\0\0\0\0\0",
        output: b"GIOP\x01\x02\0\x01\0\0\0\x0c\0\0\0\x01\0\0\0\0\0\0\0\0GIOP\x01\x02\0\x01\0\0\0\x3c\0\0\0\x02\0\0\0\x02\0\0\0\0\0\0\0\x21IDL:omg.org/CORBA/INV_POLICY:1.0\0\0\0\0\0\0\0\x05\0\0\0\x01GIOP\x01\x02\0\x01\0\0\0\x3c\0\0\0\x03\0\0\0\x02\0\0\0\0\0\0\0\x21IDL:omg.org/CORBA/INV_POLICY:1.0\0\0\0\0\0\0\0\x04\0\0\0\x01",
        ..CONFIGURED
    },
    Row {
        story: "a bind that nobody waits for holds",
        input: b"GIOP\x01\x02\0\0\0\0\0\x3e\0\0\0\x01\0\0\0\0\0\0\0\0\0\0\0\x04ping\0\0\0\x14_bind_priority_band\0\0\0\0\x01\0\0\0\x0b\0\0\0\x06\0\0\0\x0f\0\x19GIOP\x01\x02\0\0\0\0\0\x24\0\0\0\x02\x03\0\0\0\0\0\0\0\0\0\0\x04ping\0\0\0\x08current\0\0\0\0\0",
        output: b"GIOP\x01\x02\0\x01\0\0\0\x3c\0\0\0\x02\0\0\0\x02\0\0\0\0\0\0\0\x21IDL:omg.org/CORBA/INV_POLICY:1.0\0\0\0\0\0\0\0\x04\0\0\0\x01",
        ..CONFIGURED
    },
    Row {
        story: "the band goes before the lane",
        input: b"GIOP\x01\x02\0\0\0\0\0\x3e\0\0\0\x01\x03\0\0\0\0\0\0\0\0\0\0\x04ping\0\0\0\x14_bind_priority_band\0\0\0\0\x01\0\0\0\x0b\0\0\0\x06\0\0\0\x0f\0\x19GIOP\x01\x02\0\0\0\0\0\x30\0\0\0\x02\x03\0\0\0\0\0\0\0\0\0\0\x04ping\0\0\0\x08current\0\0\0\0\x01\0\0\0\x0a\0\0\0\x04\0\0\0\x0c",
        output: b"GIOP\x01\x02\0\x01\0\0\0\x0c\0\0\0\x01\0\0\0\0\0\0\0\0GIOP\x01\x02\0\x01\0\0\0\x3c\0\0\0\x02\0\0\0\x02\0\0\0\0\0\0\0\x21IDL:omg.org/CORBA/INV_POLICY:1.0\0\0\0\0\0\0\0\x04\0\0\0\x01",
        ..CONFIGURED
    },
    Row {
        story: "a declared priority in the band",
        input: b"GIOP\x01\x02\0\0\0\0\0\x3e\0\0\0\x01\x03\0\0\0\0\0\0\0\0\0\0\x04ping\0\0\0\x14_bind_priority_band\0\0\0\0\x01\0\0\0\x0b\0\0\0\x06\0\0\0\x0f\0\x19GIOP\x01\x02\0\0\0\0\0\x24\0\0\0\x02\x03\0\0\0\0\0\0\0\0\0\0\x04decl\0\0\0\x08current\0\0\0\0\0",
        output: b"GIOP\x01\x02\0\x01\0\0\0\x0c\0\0\0\x01\0\0\0\0\0\0\0\0GIOP\x01\x02\0\x01\0\0\0\x0e\0\0\0\x02\0\0\0\0\0\0\0\0\0\x14",
        ..CONFIGURED
    },
];

/// Flags and operations.
const CALLS: &[Row<'static>] = &[
    Row {
        story: "early replies have no body",
        input: b"GIOP\x01\x02\0\0\0\0\0\x24\0\0\0\x01\x01\0\0\0\0\0\0\0\0\0\0\x04ping\0\0\0\x08current\0\0\0\0\0GIOP\x01\x02\0\0\0\0\0\x24\0\0\0\x02\x01\0\0\0\0\0\0\0\0\0\0\x04ping\0\0\0\x05gone\0\0\0\0\0\0\0\0",
        output: b"GIOP\x01\x02\0\x01\0\0\0\x0c\0\0\0\x01\0\0\0\0\0\0\0\0GIOP\x01\x02\0\x01\0\0\0\x0c\0\0\0\x02\0\0\0\0\0\0\0\0",
        ..CONFIGURED
    },
    Row {
        story: "no reply is due",
        input: b"GIOP\x01\x02\0\0\0\0\0\x24\0\0\0\x01\0\0\0\0\0\0\0\0\0\0\0\x04ping\0\0\0\x08current\0\0\0\0\0GIOP\x01\x02\0\0\0\0\0\x24\0\0\0\x02\0\0\0\0\0\0\0\0\0\0\0\x04ping\0\0\0\x05gone\0\0\0\0\0\0\0\0GIOP\x01\x02\0\0\0\0\0\x24\0\0\0\x03\x02\0\0\0\0\0\0\0\0\0\0\x04ping\0\0\0\x08current\0\0\0\0\0",
        ..CONFIGURED
    },
    Row {
        story: "an unknown operation",
        input: b"GIOP\x01\x02\0\0\0\0\0\x24\0\0\0\x01\x03\0\0\0\0\0\0\0\0\0\0\x04ping\0\0\0\x05gone\0\0\0\0\0\0\0\0GIOP\x01\x02\0\0\0\0\0\x20\0\0\0\x02\x03\0\0\0\0\0\0\0\0\0\0\x04ping\0\0\0\x01\0\0\0\0\0\0\0\0",
        output: b"GIOP\x01\x02\0\x01\0\0\0\x3c\0\0\0\x01\0\0\0\x02\0\0\0\0\0\0\0\x24IDL:omg.org/CORBA/BAD_OPERATION:1.0\0\0\0\0\x01\0\0\0\x01GIOP\x01\x02\0\x01\0\0\0\x3c\0\0\0\x02\0\0\0\x02\0\0\0\0\0\0\0\x24IDL:omg.org/CORBA/BAD_OPERATION:1.0\0\0\0\0\x01\0\0\0\x01",
        ..CONFIGURED
    },
    Row {
        story: "echo answers its text",
        input: b"GIOP\x01\x02\0\0\0\0\0\x2b\0\0\0\x01\x03\0\0\0\0\0\0\0\0\0\0\x04ping\0\0\0\x05echo\0\0\0\0\0\0\0\0\0\0\0\x03hi\0",
        output: b"GIOP\x01\x02\0\x01\0\0\0\x13\0\0\0\x01\0\0\0\0\0\0\0\0\0\0\0\x03hi\0",
        ..CONFIGURED
    },
    Row {
        story: "echo without its text",
        input: b"GIOP\x01\x02\0\0\0\0\0\x24\0\0\0\x01\x03\0\0\0\0\0\0\0\0\0\0\x04ping\0\0\0\x05echo\0\0\0\0\0\0\0\0",
        output: b"GIOP\x01\x02\0\x01\0\0\0\x38\0\0\0\x01\0\0\0\x02\0\0\0\0\0\0\0\x1eIDL:omg.org/CORBA/MARSHAL:1.0\0\0\0\0\0\0\x01\0\0\0\x01",
        ..CONFIGURED
    },
    Row {
        story: "note answers nothing",
        input: b"GIOP\x01\x02\0\0\0\0\0\x24\0\0\0\x01\x03\0\0\0\0\0\0\0\0\0\0\x04ping\0\0\0\x05note\0\0\0\0\0\0\0\0",
        output: b"GIOP\x01\x02\0\x01\0\0\0\x0c\0\0\0\x01\0\0\0\0\0\0\0\0",
        ..CONFIGURED
    },
    Row {
        story: "each object is an object",
        input: b"GIOP\x01\x02\0\0\0\0\0\x45\0\0\0\x01\x03\0\0\0\0\0\0\0\0\0\0\x04ping\0\0\0\x06_is_a\0\0\0\0\0\0\0\0\0\0\x1dIDL:omg.org/CORBA/Object:1.0\0GIOP\x01\x02\0\0\0\0\0\x2c\0\0\0\x02\x03\0\0\0\0\0\0\0\0\0\0\x04ping\0\0\0\x0e_non_existent\0\0\0\0\0\0\0",
        output: b"GIOP\x01\x02\0\x01\0\0\0\x0d\0\0\0\x01\0\0\0\0\0\0\0\0\x01GIOP\x01\x02\0\x01\0\0\0\x0d\0\0\0\x02\0\0\0\0\0\0\0\0\0",
        ..CONFIGURED
    },
];

/// Other messages, and what breaks a rule.
const MESSAGES: &[Row<'static>] = &[
    Row {
        story: "known and unknown keys are located",
        input: b"GIOP\x01\x02\0\x03\0\0\0\x10\0\0\0\x01\0\0\0\0\0\0\0\x04pingGIOP\x01\x02\0\x03\0\0\0\x10\0\0\0\x02\0\0\0\0\0\0\0\x04pongGIOP\x01\x02\0\x03\0\0\0\x10\0\0\0\x03\0\x01\0\0\0\0\0\0\0\0\0\0",
        output: b"GIOP\x01\x02\0\x04\0\0\0\x08\0\0\0\x01\0\0\0\x01GIOP\x01\x02\0\x04\0\0\0\x08\0\0\0\x02\0\0\0\0GIOP\x01\x02\0\x04\0\0\0\x08\0\0\0\x03\0\0\0\0",
        ..CONFIGURED
    },
    Row {
        story: "a cancel of nothing",
        input: b"GIOP\x01\x02\0\x02\0\0\0\x04\0\0\0\x01GIOP\x01\x02\0\0\0\0\0\x24\0\0\0\x01\x03\0\0\0\0\0\0\0\0\0\0\x04ping\0\0\0\x08current\0\0\0\0\0",
        output: b"GIOP\x01\x02\0\x01\0\0\0\x0e\0\0\0\x01\0\0\0\0\0\0\0\0\0\x0a",
        ..CONFIGURED
    },
    Row {
        story: "nothing is read behind a CloseConnection",
        input: b"GIOP\x01\x02\0\0\0\0\0\x24\0\0\0\x01\x03\0\0\0\0\0\0\0\0\0\0\x04ping\0\0\0\x08current\0\0\0\0\0GIOP\x01\x02\0\x05\0\0\0\0rubbish that is no GIOP",
        output: b"GIOP\x01\x02\0\x01\0\0\0\x0e\0\0\0\x01\0\0\0\0\0\0\0\0\0\x0a",
        ..CONFIGURED
    },
    Row {
        story: "nor behind a MessageError",
        input: b"GIOP\x01\x02\0\x06\0\0\0\0GIOP\x01\x02\0\0\0\0\0\x24\0\0\0\x01\x03\0\0\0\0\0\0\0\0\0\0\x04ping\0\0\0\x08current\0\0\0\0\0",
        ..CONFIGURED
    },
    Row {
        story: "a Reply is the wrong way",
        input: b"GIOP\x01\x02\0\0\0\0\0\x24\0\0\0\x01\x03\0\0\0\0\0\0\0\0\0\0\x04ping\0\0\0\x08current\0\0\0\0\0GIOP\x01\x02\0\x01\0\0\0\x0c\0\0\0\x07\0\0\0\0\0\0\0\0",
        status: 8,
        note: "Input(48, WrongWay)",
        output: b"GIOP\x01\x02\0\x01\0\0\0\x0e\0\0\0\x01\0\0\0\0\0\0\0\0\0\x0aGIOP\x01\x02\0\x06\0\0\0\0",
        ..CONFIGURED
    },
    Row {
        story: "a LocateReply is the wrong way",
        input: b"GIOP\x01\x02\0\x04\0\0\0\x08\0\0\0\x07\0\0\0\x01",
        status: 8,
        note: "Input(0, WrongWay)",
        output: b"GIOP\x01\x02\0\x06\0\0\0\0",
        ..CONFIGURED
    },
    Row {
        story: "a target of no form",
        input: b"GIOP\x01\x02\0\0\0\0\0\x24\0\0\0\x01\x03\0\0\0\0\x03\0\0\0\0\0\x04ping\0\0\0\x08current\0\0\0\0\0",
        status: 8,
        note: "Input(0, BadTarget)",
        output: b"GIOP\x01\x02\0\x06\0\0\0\0",
        ..CONFIGURED
    },
    Row {
        story: "a version that is not spoken",
        input: b"GIOP\x01\x01\0\0\0\0\0\x24\0\0\0\x01\x03\0\0\0\0\0\0\0\0\0\0\x04ping\0\0\0\x08current\0\0\0\0\0",
        status: 8,
        note: "Input(0, Frame(BadVersion))",
        output: b"GIOP\x01\x02\0\x06\0\0\0\0",
        ..CONFIGURED
    },
    Row {
        story: "an order of its own",
        input: b"GIOP\x01\x02\x01\0\x30\0\0\0\x01\0\0\0\x03\0\0\0\0\0\0\0\x04\0\0\0ping\x08\0\0\0current\0\x01\0\0\0\x0a\0\0\0\x04\0\0\0\x01\0\x14\0GIOP\x01\x02\0\0\0\0\0\x24\0\0\0\x02\x03\0\0\0\0\0\0\0\0\0\0\x04ping\0\0\0\x08current\0\0\0\0\0",
        output: b"GIOP\x01\x02\x01\x01\x0e\0\0\0\x01\0\0\0\0\0\0\0\0\0\0\0\x14\0GIOP\x01\x02\0\x01\0\0\0\x0e\0\0\0\x02\0\0\0\0\0\0\0\0\0\x0a",
        ..CONFIGURED
    },
];

#[test]
fn any_input_is_answered_by_the_rules(rt: HostRuntime) {
    assert_eq!(rt; first_wrong(&rt, rt.alloc(), REFUSALS), "");
    assert_eq!(rt; first_wrong(&rt, rt.alloc(), PRECEDENCE), "");
    assert_eq!(rt; first_wrong(&rt, rt.alloc(), CALLS), "");
    assert_eq!(rt; first_wrong(&rt, rt.alloc(), MESSAGES), "");
}

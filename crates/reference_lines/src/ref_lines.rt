//! The lines of `orb refs`.
ghost use Rattle.std.specs.Prelude.{◌≡◌, ◌++◌, OnOk, string_bytes, option_map};
ghost use Rattle.std.specs.List.{flat_map};
ghost use Rattle.service_contexts.specs.Moves.{items_of};
ghost use Rattle.reference_lines.specs.ReferenceText as Lines;

use orb_base::{Band, List, NoMemory, Octets, Priority, PriorityModel, Text};
use std::fmt;
use std::fmt::Write;
use text_streams::shown;

/// Where an object is.
#[derive(Clone, Copy)]
pub struct Address<'a> {
    pub host: &'a Text,
    pub port: u16,
    pub key: &'a Octets,
}

impl fmt::Display for Address<'_> {
    ghost use Rattle.std.specs.Prelude.{Some};

    ghost output = { λ a. Some (Lines.address_text a.host.now a.port a.key.now.items) };

    fn fmt<W: fmt::Write>(&self, f: &mut fmt::Formatter<W>) -> fmt::Result {
        let host = shown(self.host.as_slice());
        let key = shown(self.key.as_slice());
        write!(f, "host {host}\nport {}\nkey {key}\n", self.port)
    }
}

/// The name of a priority model: Real-time CORBA 1.2, Priority models.
fn model_name(model: PriorityModel) -> &'static str
    ensures { result.now ≡ Lines.model_name model }
{
    match model {
        PriorityModel::ClientPropagated => "CLIENT_PROPAGATED",
        PriorityModel::ServerDeclared => "SERVER_DECLARED",
    }
}

/// Puts the repository id of a type after the text.
pub fn put_type(text: &mut String, id: &Text) -> Result<(), NoMemory>
    ensures { OnOk result (string_bytes text.new ≡ string_bytes text.old ++ Lines.type_text id.now) }
{
    let id = shown(id.as_slice());
    write!(text, "type {id}\n")?;
    Ok(())
}

/// Puts an address after the text.
pub fn put_address(text: &mut String, address: Address<'_>) -> Result<(), NoMemory>
    ensures { OnOk result (string_bytes text.new ≡ string_bytes text.old
        ++ Lines.address_text address.entry.host.now address.entry.port address.entry.key.now.items) }
{
    write!(text, "{address}")?;
    Ok(())
}

/// Puts a priority model and the server's priority after the text, where there are some.
pub fn put_model(
    text: &mut String,
    model: Option<(PriorityModel, Priority)>,
) -> Result<(), NoMemory>
    ensures { OnOk result (string_bytes text.new ≡ string_bytes text.old ++ Lines.model_text model) }
{
    if let Some((model, priority)) = model {
        let name = model_name(model);
        let priority = priority.level();
        write!(text, "model {name} {priority}\n")?;
    }
    Ok(())
}

/// Puts a band after the text.
fn put_band(text: &mut String, band: Band) -> Result<(), NoMemory>
    ensures { OnOk result (string_bytes text.new ≡ string_bytes text.old ++ Lines.band_text band) }
{
    let low = band.low().level();
    let high = band.high().level();
    write!(text, "band {low} {high}\n")?;
    Ok(())
}

/// Puts each band after the text.
fn put_each(text: &mut String, bands: &[Band]) -> Result<(), NoMemory>
    ensures { OnOk result (string_bytes text.new ≡ string_bytes text.old ++ flat_map Lines.band_text bands.now) }
{
    for band in bands {
        put_band(text, *band)?;
    }
    Ok(())
}

/// Puts each band after the text, where there are bands.
pub fn put_bands(text: &mut String, bands: &Option<List<Band>>) -> Result<(), NoMemory>
    ensures { OnOk result (string_bytes text.new ≡ string_bytes text.old ++ Lines.bands_text (option_map items_of bands.now)) }
{
    match bands {
        Some(bands) => put_each(text, bands.as_slice()),
        None => Ok(()),
    }
}

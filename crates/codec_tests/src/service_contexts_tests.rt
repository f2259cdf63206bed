//! Contexts and policy values as bytes that were spelled out by hand from CORBA 3.0.3, section 15.3.3.
ghost use Rattle.std.specs.Prelude.{◌≡◌, IfSome};
ghost use Rattle.cdr_core.specs.Lists.{AreCounted, item_of_tagged};

use cdr_core::{CdrError, Reader, take_list};
use orb_base::{Band, Context, List, Octets, Order, Priority, PriorityModel, Tagged};
use service_contexts::*;
use std::alloc::Global;
use std::test::*;

/// The priority 100 in either order.
const HUNDRED: &[u8] = &[0, 0, 0, 100];

const LITTLE_HUNDRED: &[u8] = &[1, 0, 100, 0];

/// The band 100 to 200 in either order.
const RANGE: &[u8] = &[0, 0, 0, 100, 0, 200];

const LITTLE_RANGE: &[u8] = &[1, 0, 100, 0, 200, 0];

/// CLIENT_PROPAGATED with the priority 100.
const MODEL: &[u8] = &[0, 0, 0, 0, 0, 0, 0, 0, 0, 100];

/// The bands 0 to 99 and 100 to 200.
const BANDS: &[u8] = &[0, 0, 0, 0, 0, 0, 0, 2, 0, 0, 0, 99, 0, 100, 0, 200];

/// The number of no bands.
const NO_BAND: &[u8] = &[0; 8];

fn band(low: i16, high: i16) -> Option<Band> {
    Band::new(Priority::new(low)?, Priority::new(high)?)
}

/// Priorities with their contexts.
const PRIORITIES: &[(Order, i16, &[u8])] = &[
    (Order::Big, 100, HUNDRED),
    (Order::Little, 100, LITTLE_HUNDRED),
    (Order::Big, 0x7fff, &[0, 0, 0x7f, 0xff]),
];

fn are_priorities_written(rows: &[(Order, i16, &[u8])]) -> bool {
    for (order, level, bytes) in rows {
        match Priority::new(*level) {
            Some(priority) => {
                if priority_context(*order, priority).as_slice() != *bytes {
                    return false;
                }
            }
            None => return false,
        }
    }
    true
}

#[test]
fn a_priority_is_written_in_either_order(rt: HostRuntime) {
    assert!(rt; are_priorities_written(PRIORITIES));
}

fn is_range_written() -> bool {
    match band(100, 200) {
        Some(range) => {
            range_context(Order::Big, range).as_slice() == RANGE
                && range_context(Order::Little, range).as_slice() == LITTLE_RANGE
        }
        None => false,
    }
}

#[test]
fn a_range_is_written_low_end_first(rt: HostRuntime) {
    assert!(rt; is_range_written());
}

/// Models with the server's priority, and their values.
const MODELS: &[(PriorityModel, i16, &[u8])] = &[
    (PriorityModel::ClientPropagated, 100, MODEL),
    (
        PriorityModel::ServerDeclared,
        30,
        &[0, 0, 0, 0, 0, 0, 0, 1, 0, 30],
    ),
];

fn are_models_written(rows: &[(PriorityModel, i16, &[u8])]) -> bool {
    for (model, level, bytes) in rows {
        match Priority::new(*level) {
            Some(priority) => {
                if model_policy(*model, priority).as_slice() != *bytes {
                    return false;
                }
            }
            None => return false,
        }
    }
    true
}

#[test]
fn a_model_is_written_with_its_priority(rt: HostRuntime) {
    assert!(rt; are_models_written(MODELS));
}

/// Whether bands, 2 at most, are written so.
fn writes_bands(alloc: Global, bands: &[Band], bytes: &[u8]) -> bool {
    if bands.len() > 2 {
        return false;
    }
    match bands_policy(alloc, bands) {
        Ok(octets) => octets.as_slice() == bytes,
        Err(_) => false,
    }
}

/// Whether two bands, and none, are written so.
fn are_bands_written(alloc: Global) -> bool {
    match (band(0, 99), band(100, 200)) {
        (Some(low), Some(high)) => {
            writes_bands(alloc, &[low, high], BANDS) && writes_bands(alloc, &[], NO_BAND)
        }
        _ => false,
    }
}

#[test]
fn bands_are_written_behind_their_number(rt: HostRuntime) {
    assert!(rt; are_bands_written(rt.alloc()));
}

fn octets(alloc: Global, bytes: &[u8]) -> Option<Octets>
    ensures { IfSome result (λ o. o.items ≡ bytes.now) }
{
    let vec = Vec::from_slice(alloc, bytes).ok()?;
    Some(List::from_vec(vec))
}

/// Puts a context after those that are there. False where memory is wanting.
fn put(alloc: Global, list: &mut List<Context>, id: u32, bytes: &[u8]) -> bool {
    match octets(alloc, bytes) {
        Some(bytes) => list.push(Context { id, bytes }).is_ok(),
        None => false,
    }
}

fn put_all(alloc: Global, list: &mut List<Context>, parts: &[(u32, &[u8])]) -> bool {
    for (id, bytes) in parts {
        if !put(alloc, list, *id, bytes) {
            return false;
        }
    }
    true
}

fn level_of(priority: Option<Priority>) -> Option<i16> {
    match priority {
        Some(priority) => Some(priority.get()),
        None => None,
    }
}

fn ends_of(band: Option<Band>) -> Option<(i16, i16)> {
    match band {
        Some(band) => Some((band.low().get(), band.high().get())),
        None => None,
    }
}

/// Contexts of these ids and contents, and the priority and the range that they tell.
struct Told {
    parts: &'static [(u32, &'static [u8])],
    priority: Option<i16>,
    range: Option<(i16, i16)>,
}

fn tells(alloc: Global, row: &Told) -> bool {
    let mut list = List::new(alloc);
    if !put_all(alloc, &mut list, row.parts) {
        return false;
    }
    match contexts_of(&list) {
        Ok(told) => level_of(told.priority) == row.priority && ends_of(told.range) == row.range,
        Err(_) => false,
    }
}

fn all_tell(alloc: Global, rows: &[Told]) -> bool {
    for row in rows {
        if !tells(alloc, row) {
            return false;
        }
    }
    true
}

const TOLD: &[Told] = &[
    Told {
        parts: &[],
        priority: None,
        range: None,
    },
    Told {
        parts: &[(10, HUNDRED)],
        priority: Some(100),
        range: None,
    },
    Told {
        parts: &[(11, LITTLE_RANGE)],
        priority: None,
        range: Some((100, 200)),
    },
    Told {
        parts: &[(10, LITTLE_HUNDRED), (11, RANGE)],
        priority: Some(100),
        range: Some((100, 200)),
    },
    Told {
        parts: &[(11, LITTLE_RANGE), (10, HUNDRED)],
        priority: Some(100),
        range: Some((100, 200)),
    },
    Told {
        parts: &[(11, RANGE), (10, HUNDRED)],
        priority: Some(100),
        range: Some((100, 200)),
    },
    Told {
        parts: &[(10, HUNDRED), (11, RANGE)],
        priority: Some(100),
        range: Some((100, 200)),
    },
];

#[test]
fn contexts_tell_a_priority_and_a_range(rt: HostRuntime) {
    assert!(rt; all_tell(rt.alloc(), TOLD));
}

const FIRSTS: &[Told] = &[
    Told {
        parts: &[
            (9, &[]),
            (10, HUNDRED),
            (10, &[0, 0, 0, 7]),
            (11, RANGE),
            (11, &[2]),
        ],
        priority: Some(100),
        range: Some((100, 200)),
    },
    Told {
        parts: &[(10, HUNDRED), (12, &[0]), (10, &[]), (11, RANGE)],
        priority: Some(100),
        range: Some((100, 200)),
    },
];

#[test]
fn the_first_context_of_an_id_counts(rt: HostRuntime) {
    assert!(rt; all_tell(rt.alloc(), FIRSTS));
}

const PADS: &[Told] = &[Told {
    parts: &[
        (10, &[0, 7, 0x7f, 0xff, 9]),
        (11, &[1, 8, 5, 0, 5, 0, 9, 9]),
    ],
    priority: Some(0x7fff),
    range: Some((5, 5)),
}];

#[test]
fn pads_and_bytes_behind_are_ignored(rt: HostRuntime) {
    assert!(rt; all_tell(rt.alloc(), PADS));
}

/// Contexts, and the id of the first one without a reading.
type Fault = (&'static [(u32, &'static [u8])], u32);

fn is_fault(alloc: Global, parts: &[(u32, &[u8])], id: u32) -> bool {
    let mut list = List::new(alloc);
    if !put_all(alloc, &mut list, parts) {
        return false;
    }
    match contexts_of(&list) {
        Ok(_) => false,
        Err(fault) => fault == ContextFault { id },
    }
}

fn are_faults(alloc: Global, rows: &[Fault]) -> bool {
    for (parts, id) in rows {
        if !is_fault(alloc, parts, *id) {
            return false;
        }
    }
    true
}

const FIRST_FAULTS: &[Fault] = &[
    (&[(10, &[0, 0]), (11, &[])], 10),
    (&[(11, &[]), (10, &[0, 0])], 11),
    (&[(10, HUNDRED), (10, &[]), (11, &[])], 11),
];

#[test]
fn a_fault_names_the_first_context_without_a_reading(rt: HostRuntime) {
    assert!(rt; are_faults(rt.alloc(), FIRST_FAULTS));
}

/// Priorities: no byte, no order, cut short, negative in either order. Ranges: no byte, cut short, the low end above the
/// high one, an end negative.
const NO_READINGS: &[Fault] = &[
    (&[(10, &[])], 10),
    (&[(10, &[2, 0, 0, 100])], 10),
    (&[(10, &[0])], 10),
    (&[(10, &[0, 0, 0])], 10),
    (&[(10, &[0, 0, 0x80, 0])], 10),
    (&[(10, &[1, 0, 0, 0x80])], 10),
    (&[(11, &[])], 11),
    (&[(11, &[0, 0, 0, 100, 0])], 11),
    (&[(11, &[0, 0, 0, 200, 0, 100])], 11),
    (&[(11, &[0, 0, 0, 100, 0x80, 0])], 11),
    (&[(11, &[0, 0, 0xff, 0xff, 0, 100])], 11),
];

#[test]
fn contexts_without_a_reading_are_refused(rt: HostRuntime) {
    assert!(rt; are_faults(rt.alloc(), NO_READINGS));
}

/// Contexts as they are spelled in the big order, and the priority and the range that they tell, or the id of the fault.
type Spelled = (
    &'static [u8],
    Result<(Option<i16>, Option<(i16, i16)>), u32>,
);

/// None; one of each; two of one id, with an octet and a pad after the first; one without a reading; one without a
/// reading after another.
const SPELLED: &[Spelled] = &[
    (&[0, 0, 0, 0], Ok((None, None))),
    (
        &[
            0, 0, 0, 2, 0, 0, 0, 10, 0, 0, 0, 4, 0, 0, 0, 100, 0, 0, 0, 11, 0, 0, 0, 6, 0, 0, 0,
            100, 0, 200,
        ],
        Ok((Some(100), Some((100, 200)))),
    ),
    (
        &[
            0, 0, 0, 2, 0, 0, 0, 10, 0, 0, 0, 5, 0, 0, 0, 100, 9, 0, 0, 0, 0, 0, 0, 10, 0, 0, 0, 0,
        ],
        Ok((Some(100), None)),
    ),
    (&[0, 0, 0, 1, 0, 0, 0, 11, 0, 0, 0, 0], Err(11)),
    (
        &[
            0, 0, 0, 2, 0, 0, 0, 9, 0, 0, 0, 0, 0, 0, 0, 10, 0, 0, 0, 1, 0,
        ],
        Err(10),
    ),
];

type Levels = (Option<i16>, Option<(i16, i16)>);

fn levels_of(answer: Result<Contexts, ContextFault>) -> Result<Levels, u32> {
    match answer {
        Ok(told) => Ok((level_of(told.priority), ends_of(told.range))),
        Err(fault) => Err(fault.id),
    }
}

/// Whether a list that is spelled so tells this, in memory and by a reader at it.
fn both_tell(alloc: Global, bytes: &[u8], told: Result<Levels, u32>) -> bool {
    let reader = Reader::new(Order::Big, 0, bytes);
    let mut copy = reader.copy();
    let read: Result<List<Context>, CdrError> = take_list(alloc, &mut copy);
    match read {
        Ok(list) => levels_of(contexts_at(reader)) == told && levels_of(contexts_of(&list)) == told,
        Err(_) => false,
    }
}

fn all_of_both_tell(alloc: Global, rows: &[Spelled]) -> bool {
    for (bytes, told) in rows {
        if !both_tell(alloc, bytes, *told) {
            return false;
        }
    }
    true
}

#[test]
fn a_reader_at_contexts_tells_what_they_tell(rt: HostRuntime) {
    assert!(rt; all_of_both_tell(rt.alloc(), SPELLED));
}

fn is_model(bytes: &[u8], model: PriorityModel, level: i16) -> bool {
    match read_model_policy(bytes) {
        Some((read, priority)) => read == model && priority.get() == level,
        None => false,
    }
}

/// SERVER_DECLARED with the priority 30, after a pad of any content, and a byte after it.
const LITTLE_MODEL: &[u8] = &[1, 9, 9, 9, 1, 0, 0, 0, 30, 0, 7];

fn are_models_read() -> bool {
    is_model(MODEL, PriorityModel::ClientPropagated, 100)
        && is_model(LITTLE_MODEL, PriorityModel::ServerDeclared, 30)
}

#[test]
fn a_model_is_read_in_either_order(rt: HostRuntime) {
    assert!(rt; are_models_read());
}

/// No byte, cut short, a model of 2, the number 1 in the other order, a negative priority.
const NO_MODELS: &[&[u8]] = &[
    &[],
    &[0, 0, 0, 0, 0, 0, 0, 0, 0],
    &[0, 0, 0, 0, 0, 0, 0, 2, 0, 100],
    &[1, 0, 0, 0, 0, 0, 0, 1, 0, 100],
    &[0, 0, 0, 0, 0, 0, 0, 0, 0x80, 0],
];

fn are_no_models(rows: &[&[u8]]) -> bool {
    for bytes in rows {
        if read_model_policy(bytes).is_some() {
            return false;
        }
    }
    true
}

#[test]
fn other_bytes_are_no_model(rt: HostRuntime) {
    assert!(rt; are_no_models(NO_MODELS));
}

fn has_ends(bands: &List<Band>, ends: &[(i16, i16)]) -> bool {
    if bands.len() != ends.len() {
        return false;
    }
    for (i, pair) in ends.iter().enumerate() {
        if ends_of(bands.get(i).copied()) != Some(*pair) {
            return false;
        }
    }
    true
}

/// Whether the bytes carry bands from and to these priorities.
fn are_bands(alloc: Global, bytes: &[u8], ends: &[(i16, i16)]) -> bool {
    match read_bands_policy(alloc, bytes) {
        Ok(Some(bands)) => has_ends(&bands, ends),
        Ok(None) => false,
        Err(_) => false,
    }
}

/// Values, and the bands that they carry.
const BANDS_READ: &[(&[u8], &[(i16, i16)])] = &[
    (BANDS, &[(0, 99), (100, 200)]),
    (
        &[1, 0, 0, 0, 2, 0, 0, 0, 0, 0, 99, 0, 100, 0, 200, 0, 5],
        &[(0, 99), (100, 200)],
    ),
    (NO_BAND, &[]),
];

fn are_bands_read(alloc: Global, rows: &[(&[u8], &[(i16, i16)])]) -> bool {
    for (bytes, ends) in rows {
        if !are_bands(alloc, bytes, ends) {
            return false;
        }
    }
    true
}

#[test]
fn bands_are_read_in_either_order(rt: HostRuntime) {
    assert!(rt; are_bands_read(rt.alloc(), BANDS_READ));
}

/// No byte, no number, a number above what is left, a band cut short, the low end above the high one, a negative end.
const NO_BANDS: &[&[u8]] = &[
    &[],
    &[0, 0, 0, 0, 0, 0, 0],
    &[0, 0, 0, 0, 0, 0, 0, 5, 0, 1, 0, 2],
    &[0, 0, 0, 0, 0, 0, 0, 2, 0, 1, 0, 2, 0, 3],
    &[0, 0, 0, 0, 0, 0, 0, 1, 0, 2, 0, 1],
    &[0, 0, 0, 0, 0, 0, 0, 1, 0x80, 0, 0, 1],
];

fn is_no_bands(alloc: Global, bytes: &[u8]) -> bool {
    match read_bands_policy(alloc, bytes) {
        Ok(bands) => bands.is_none(),
        Err(_) => false,
    }
}

fn are_no_bands(alloc: Global, rows: &[&[u8]]) -> bool {
    for bytes in rows {
        if !is_no_bands(alloc, bytes) {
            return false;
        }
    }
    true
}

#[test]
fn other_bytes_are_no_bands(rt: HostRuntime) {
    assert!(rt; are_no_bands(rt.alloc(), NO_BANDS));
}

fn is_printed(alloc: Global, fault: ContextFault, text: &str) -> bool {
    match format!(in alloc; "{fault}") {
        Ok(printed) => printed.as_str() == text,
        Err(_) => false,
    }
}

#[test]
fn a_fault_prints_its_context(rt: HostRuntime) {
    assert!(rt; is_printed(rt.alloc(), ContextFault { id: 11 }, "context 11"));
}

/// Two policies: the model of an object, and one of another type, without a value.
const POLICIES: &[u8] = &[
    0, 0, 0, 0, 0, 0, 0, 2, 0, 0, 0, 40, 0, 0, 0, 2, 7, 8, 0, 0, 0, 0, 0, 41, 0, 0, 0, 0,
];

fn policies(alloc: Global) -> Option<List<Tagged>>
    ensures { IfSome result (λ l. AreCounted item_of_tagged l.items) }
{
    let bytes = octets(alloc, &[7, 8])?;
    let mut list = List::new(alloc);
    list.push(Tagged { tag: 40, bytes }).ok()?;
    let bytes = List::new(alloc);
    list.push(Tagged { tag: 41, bytes }).ok()?;
    Some(list)
}

fn writes_policies(alloc: Global) -> bool {
    match policies(alloc) {
        Some(list) => match policies_component(alloc, list.as_slice()) {
            Ok(written) => written.as_slice() == POLICIES,
            Err(_) => false,
        },
        None => false,
    }
}

fn is_policy(policy: &Tagged, tag: u32, bytes: &[u8]) -> bool {
    policy.tag == tag && policy.bytes.as_slice() == bytes
}

fn reads_policies(alloc: Global) -> bool {
    match read_policies_component(alloc, POLICIES) {
        Ok(Some(list)) => match list.as_slice() {
            [model, other] => is_policy(model, 40, &[7, 8]) && is_policy(other, 41, &[]),
            _ => false,
        },
        Ok(None) => false,
        Err(_) => false,
    }
}

/// Whether the bytes that are cut short carry no policies.
fn reads_none_cut(alloc: Global) -> bool {
    match read_policies_component(alloc, &POLICIES[..27]) {
        Ok(list) => list.is_none(),
        Err(_) => false,
    }
}

#[test]
fn policies_are_carried_by_a_component(rt: HostRuntime) {
    let alloc = rt.alloc();
    assert!(rt; writes_policies(alloc) && reads_policies(alloc) && reads_none_cut(alloc));
}

//! Calls of one method.

use dynamic_servants::Servants;
use idl_reader::read_idl;
use orb_base::{ConnId, Due, Job, List, Order, Outcome, Priority, Serving, Text};
use servant_scripts::read_script;
use std::alloc::Global;
use std::io;
use std::time::{Clock, Duration, Instant};

const IDL: &[u8] = b"interface Adder { long add(in long x); };";

/// The method has 49 variables, of which each adds to the one before it, and a `return`.
const SCRIPT: &[u8] = b"servant Adder { op add(x) {
let a = x + 1; let b = a + 1; let c = b + 1; let d = c + 1; let e = d + 1; let f = e + 1; let g = f + 1;
let h = g + 1; let i = h + 1; let j = i + 1; let k = j + 1; let l = k + 1; let m = l + 1; let n = m + 1;
let o = n + 1; let p = o + 1; let q = p + 1; let r = q + 1; let s = r + 1; let t = s + 1; let u = t + 1;
let v = u + 1; let w = v + 1; let y = w + 1; let z = y + 1; let aa = z + 1; let ab = aa + 1; let ac = ab + 1;
let ad = ac + 1; let ae = ad + 1; let af = ae + 1; let ag = af + 1; let ah = ag + 1; let ai = ah + 1; let aj = ai + 1;
let ak = aj + 1; let al = ak + 1; let am = al + 1; let an = am + 1; let ao = an + 1; let ap = ao + 1; let aq = ap + 1;
let ar = aq + 1; let as = ar + 1; let at = as + 1; let au = at + 1; let av = au + 1; let aw = av + 1; let ax = aw + 1;
return ax; } }";

/// The servants of the script.
fn servants(alloc: Global) -> Option<Servants> {
    let repository = read_idl(alloc, IDL).ok()?;
    let script = read_script(alloc, SCRIPT).ok()?;
    Servants::check(alloc, repository, &script).ok()
}

/// A request for `add` of 7.
fn job(alloc: Global) -> Option<Job> {
    let mut body = List::new(alloc);
    body.append(&[0, 0, 0, 7]).ok()?;
    Some(Job {
        conn: ConnId { slot: 0, nth: 0 },
        serial: 0,
        id: 1,
        order: Order::Big,
        due: Due::Late,
        priority: Priority::new(100)?,
        lane: 0,
        size: 60,
        target: 0,
        operation: Text::new(alloc, b"add").ok()?,
        body,
    })
}

/// Whether the outcome is 56: 7 and 49 more.
fn is_right(outcome: &Outcome) -> bool {
    match outcome {
        Outcome::Returned(body) => body.as_slice() == [0u8, 0, 0, 56].as_slice(),
        _ => false,
    }
}

/// How long so many calls take; `None` where one isn't answered by the sum, or memory is wanting.
pub fn time_calls<R: Clock>(rt: &R, alloc: Global, calls: u32) -> io::Result<Option<Duration>> {
    let (Some(servants), Some(job)) = (servants(alloc), job(alloc)) else {
        return Ok(None);
    };
    let Ok(interface) = Text::new(alloc, b"IDL:Adder:1.0") else {
        return Ok(None);
    };
    let start = Instant::now(rt)?;
    for _ in 0..calls {
        if !is_right(&servants.invoke(&interface, &job)) {
            return Ok(None);
        }
    }
    Ok(Some(start.elapsed(rt)?))
}

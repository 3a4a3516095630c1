// A list of calls as bytes: where each call ends, and what room its answer takes.
//
// `specs/Script.antt` says which calls a script holds.
#![tactic(auto)]

ghost use Rattle.std.specs.Prelude.{◌≡◌, ◌<◌, ◌≤◌, leb, length};
ghost use Rattle.call_script.specs.Script.{delivery_size, size_at, call_at, calls};
ghost use Rattle.call_script.specs.Room.{room, room_of};

mod kinds;

pub use kinds::{CallKind, UnknownCall};

// How many bytes the whole call at `at` takes; 0 where there is none, as in the definition `size_at`: no call takes none.
pub fn size_at(script: &[u8], at: usize) -> usize
    ensures { result ≡ size_at script.now at }
{
    if script.len() <= at {
        return 0;
    }
    match CallKind::try_from(script[at]) {
        Ok(CallKind::Deliver) => delivery_size(script, at),
        Ok(CallKind::TakeBack) => 1,
        Ok(CallKind::Close) => 1,
        Ok(CallKind::Totals) => 1,
        Err(_) => 0,
    }
}

// How many bytes the delivery at `at` takes; 0 where the script ends before it.
fn delivery_size(script: &[u8], at: usize) -> usize
    requires { at < length script.now }
    ensures { result ≡ delivery_size script.now at }
{
    let left = script.len() - at;
    if left < 2 {
        return 0;
    }
    let size = 2 + script[at + 1] as usize;
    if left < size {
        return 0;
    }
    size
}

// How many bytes the answer to the call at `at` takes.
pub fn room_at(script: &[u8], at: usize) -> usize
    requires { 0 < size_at script.now at }
    ensures value { result ≡ room (call_at script.now at) }
    ensures upper_bound { result ≤ 528 }
{
    match CallKind::try_from(script[at]) {
        Ok(CallKind::Deliver) => 8,
        Ok(CallKind::TakeBack) => 8,
        Ok(CallKind::Close) => 8,
        Ok(CallKind::Totals) => 528,
        // No whole call begins so.
        Err(_) => 0,
    }
}

// Whether the answers to all calls of the script fit into so many bytes.
pub fn fits(script: &[u8], bytes: usize) -> bool
    ensures { result ≡ leb (room_of (calls script.now)) bytes }
{
    let mut at = 0usize;
    let mut left = bytes;
    // Each call takes a byte at least, so there are no more calls than bytes. Where the next one begins
    // its size says, so no iterator yields the places.
    for _ in 0..script.len() {
        let size = size_at(script, at);
        if size == 0 {
            return true;
        }
        let room = room_at(script, at);
        if left < room {
            return false;
        }
        left -= room;
        at += size;
    }
    true
}

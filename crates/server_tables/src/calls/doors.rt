// Rows of doors.
ghost use Rattle.std.specs.Prelude.{◌≡◌, All, IfOk};
ghost use Rattle.outside_links.specs.MemPort.{IsUntouched};

use crate::calls::ports::{port_of, say_port};
use crate::calls::words::{NoRow, number_in, numbers_in, say};
use outside_links::{Door, MemDoor, MemPort, Port};
use std::alloc::Global;
use std::collections::VecDeque;

/// The port that a word tells.
fn port_in(alloc: Global, part: &str) -> Result<MemPort, NoRow>
    ensures { IfOk result IsUntouched }
{
    if part == "!" {
        return port_of(alloc, 0, numbers_in(alloc, "0")?);
    }
    port_of(alloc, number_in(part)?, Vec::new(alloc))
}

/// The ports of a list, on which no call was made.
fn ports_in(alloc: Global, word: &str) -> Result<Vec<MemPort>, NoRow>
    ensures { IfOk result (λ ports. All IsUntouched ports.items) }
{
    let mut ports = Vec::new(alloc);
    for part in word.split(',') {
        if part != "-" {
            let port = port_in(alloc, part)?;
            ports.push(port)?;
        }
    }
    Ok(ports)
}

/// What a door tells of itself.
fn say_door<D: Door>(rt: &impl Print, door: &D) {
    let ended = door.ended();
    let faults = door.faults();
    let _ = print!(rt; "/{ended},{faults}");
}

/// Accepts on a port.
fn accept_once(rt: &impl Print, port: &mut MemPort) {
    let answer = match port.accept() {
        Ok(Some(link)) => {
            drop(link);
            "link"
        }
        Ok(None) => "none",
        Err(_) => "failed",
    };
    say(rt, answer);
    say_port(rt, port)
}

/// Keeps a port.
fn keep(rt: &impl Print, out: &mut VecDeque<MemPort>, port: MemPort) -> &'static str {
    say_port(rt, &port);
    match out.push_back(port) {
        Ok(()) => "port",
        Err(_) => "no memory",
    }
}

/// Makes one call of a row, and says what it answers.
fn call_door(
    rt: &impl Print,
    door: &mut MemDoor,
    out: &mut VecDeque<MemPort>,
    call: &str,
) -> &'static str {
    if call == "g" {
        return match out.pop_front() {
            Some(port) => {
                door.give_back(port);
                "back"
            }
            None => "no port",
        };
    }
    match door.listen(number_in(call).unwrap_or(0).min(65535) as u16) {
        Ok(port) => keep(rt, out, port),
        Err(_) => "failed",
    }
}

/// Makes the calls of a row on a door.
pub(crate) fn door_row(rt: &impl Print, alloc: Global, row: &[&str]) -> Result<(), NoRow> {
    let [ports, failing, calls @ ..] = row else {
        return Err(NoRow);
    };
    let failing = numbers_in(alloc, failing)?;
    let ports = ports_in(alloc, ports)?;
    let mut door = MemDoor::new(ports, failing);
    let mut out = VecDeque::new(alloc);
    for call in calls {
        if *call == "a" {
            match out.front_mut() {
                Some(port) => accept_once(rt, port),
                None => say(rt, "no port"),
            }
        } else {
            let answer = call_door(rt, &mut door, &mut out, call);
            say(rt, answer);
            say_door(rt, &door);
        }
    }
    Ok(())
}

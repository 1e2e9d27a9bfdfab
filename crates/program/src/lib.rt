// What both programs do: a P5 file on standard input, and its outlines as path data, one line a region, on standard output.
#![tactic(auto)]

ghost use Rattle.std.specs.Prelude.{◌≤◌, length, take};
ghost use Rattle.answers.specs.Put.{Put};
ghost use Rattle.printing.specs.Printed.{text_room, whole_text};
ghost use Rattle.program.specs.Ran.{Room, Ran};

use printing::Order;
use std::io::{Read, Write};

// Reads until the buffer is full, the input ends or a read fails, and answers how many bytes stand at the front of the buffer. The step
// is what each read gave, so the place is counted by hand.
fn read_full(rt: &HostRuntime, buffer: &mut [u8]) -> usize
    ensures { result ≤ length buffer.new }
{
    let mut stdin = rt.stdin();
    let mut done = 0;
    while done < buffer.len() {
        match stdin.read(&mut buffer[done..]) {
            Ok(count) if count > 0 => done += count,
            _ => break,
        }
    }
    done
}

// The whole text for the bytes read, the front of a buffer. It is put at the front of a list that has room for any text; the answer is
// its length.
fn answer(buffer: &[u8], read: usize, order: Order, text: &mut [u8]) -> usize
    requires { (read ≤ length buffer.now) × (text_room ≤ length text.old) }
    ensures put { Put (whole_text order (take read buffer.now)) text.old text.new result }
    ensures within { result ≤ length text.new }
{
    match printing::print(&buffer[..read], order, text) {
        Ok(count) => count as usize,
        Err(refused) => refused.count as usize,
    }
}

// Reads a file whose samples stand in this order, and prints its text. More bytes than the limit are asked for, so that a longer input is
// seen and not cut. A text that could not be written whole is told on standard error by the complaint.
pub fn run(rt: &HostRuntime, order: Order, complaint: &[u8], buffer: &mut [u8], text: &mut [u8])
    requires { Room buffer.old text.old }
    ensures { Ran order buffer.new text.old text.new }
{
    let read = read_full(rt, buffer);
    let count = answer(buffer, read, order, text);
    if rt.stdout().write_all(&text[..count]).is_err() {
        let _told = rt.stderr().write_all(complaint);
    }
}

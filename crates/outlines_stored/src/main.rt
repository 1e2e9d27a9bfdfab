// The program: a P5 file whose samples stand in block order, of at most 16,384 bytes, on standard input, and its outlines as path data,
// one line a region, on standard output.
#![tactic(auto)]

ghost use Rattle.printing.specs.declared.order.Order.{Order};
ghost use Rattle.program.specs.Ran.{Room, Ran};

use printing::Order;

// Reads a file and prints its text.
fn print_outlines(rt: &HostRuntime, buffer: &mut [u8], text: &mut [u8])
    requires { Room buffer.old text.old }
    ensures { Ran Order.BlockOrder buffer.new text.old text.new }
{
    program::run(
        rt,
        Order::BlockOrder,
        b"outlines-stored: the text could not be written whole\n",
        buffer,
        text,
    );
}

fn main(rt: HostRuntime) {
    let mut buffer = [0u8; printing::INPUT_LIMIT + 1];
    let mut text = [0u8; printing::TEXT_ROOM];
    print_outlines(&rt, &mut buffer, &mut text);
}

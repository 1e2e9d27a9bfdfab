// The orders in which the samples of a picture may stand.
ghost use Rattle.answers.specs.Put.{Put};
ghost use Rattle.drawing.specs.Outlines.{image_text};
ghost use Rattle.drawing.specs.Picturing.{RasterFits};
ghost use Rattle.printing.specs.Printed.{image_of};

// Row by row, north row first; or in block order, which is rising location code.
#[derive(Clone, Copy, Debug, PartialEq, Eq)]
pub enum Order {
    Rows,
    BlockOrder,
}

// The lines of a picture's samples, which are put into rows first where they stand in block order; the local raster always takes them.
pub(crate) fn draw(n: u32, samples: &[u16], order: Order, text: &mut [u8]) -> usize
    requires { RasterFits n samples.now text.old }
    ensures { Put (image_text n (image_of order n samples.now)) text.old text.new result }
{
    match order {
        Order::Rows => drawing::write_picture(n, samples, text),
        Order::BlockOrder => {
            let mut raster = [0u16; 4096];
            let done = rearranging::from_block_order(n, samples, &mut raster);
            let count = done.unwrap_or(0) as usize;
            drawing::write_picture(n, &raster[..count], text)
        }
    }
}

// Format: both tables with any contents become fresh ones.
ghost use Rattle.std.specs.Prelude.{◌≡◌, length};
ghost use Rattle.paper.specs.Tables.{fresh};
ghost use Rattle.paper.specs.Bytes.{headers_length, header_table, page_table};
ghost use Rattle.stores.specs.Geometry.{Geometry};

use paper::{Bank, Control};

// Next id 1, clock 0 and zeros elsewhere.
pub fn format(headers: &mut [u8], pages: &mut [u8], bank: Bank)
    requires { (length headers.old ≡ headers_length) × Geometry bank pages.old }
    ensures headers_after { headers.new ≡ header_table (fresh bank).hs }
    ensures pages_after { pages.new ≡ page_table (fresh bank).ps }
{
    records::zero(headers);
    records::zero(pages);
    records::put_control(headers, Control { next: 1, clock: 0 });
}

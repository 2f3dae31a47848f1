// The pages of a part of the table in turn. A page that a scan does not list is read and not written.
ghost use Rattle.std.specs.Prelude.{◌≡◌, ◌+◌, ◌*◌, ◌%◌, ◌≤◌, length};
ghost use Rattle.table.specs.Table.{most_pages};
ghost use Rattle.scan.specs.Scan.{scanned_of, range_run};
ghost use Rattle.wire.specs.Bytes.{words_of, bytes_of};

use scan::{Scan, Scanned};
use wire::tables::InBytes;

// `count` pages of the table from the scan's first page on.
pub fn scan_range(table: &mut [u8], list: &mut [u8], count: usize, scan: Scan) -> Scanned
    requires table_len { (length table.old % 8 ≡ 0) × (length list.old % 8 ≡ 0) }
    requires count_in_bounds { (16 * scan.first + 16 * count ≤ length table.old) × (length table.old ≤ 16 * most_pages) }
    ensures value { scanned_of result ≡ (range_run count scan (words_of table.old) (words_of list.old)).scanned }
    ensures table_after { table.new ≡ bytes_of (range_run count scan (words_of table.old) (words_of list.old)).part }
    ensures list_after { list.new ≡ bytes_of (range_run count scan (words_of table.old) (words_of list.old)).list }
{
    let from = 16 * scan.first;
    let to = from + 16 * count;
    scan::scan_part::<InBytes>(&mut table[from..to], list, scan)
}

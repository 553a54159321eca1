// Numbers in columns.
ghost use Rattle.std.specs.Prelude.{◌≡◌, ◌++◌, [], ◌∷◌, ◌+◌, ◌<◌, ◌≤◌, length};
ghost use Rattle.rules.specs.paper.Decimal.{decimal};
ghost use Rattle.reader.specs.Put.{put};
ghost use Rattle.page.specs.Page.{to_the_right};

// The digit 0.
const ZERO: u8 = b'0';

// A number in decimal, to the right of so many columns from a place on, filled with blanks; and a byte behind them. It is written from the
// right to the left: the loop follows the digits that are left. Std prints numbers into a formatter, and not to the right of a lent slice.
pub(crate) fn put_number(page: &mut [u8], at: usize, columns: usize, number: usize, behind: u8)
    requires columns_in_bounds { at + columns < length page.old }
    requires number_len_bound { length (decimal number) ≤ columns }
    ensures { page.new ≡ put at (to_the_right columns (decimal number) ++ (behind ∷ [])) page.old }
{
    let mut column = at + columns;
    page[column] = behind;
    let mut left = number;
    while 10 <= left {
        column = column - 1;
        page[column] = ZERO + (left % 10) as u8;
        left = left / 10;
    }
    column = column - 1;
    page[column] = ZERO + left as u8;
    page[at..column].fill(b' ');
}

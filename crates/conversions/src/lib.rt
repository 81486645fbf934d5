// A word converted from one row to another by the operations themselves: for all arguments it is the one mixed by the other row, or the first refusal.
#![tactic(auto)]

ghost use Rattle.std.specs.Prelude.{◌≡◌};
ghost use Rattle.forms.specs.Refusals.{first_of};
ghost use Rattle.rows.specs.Rows.{row_refusal, mixed};

use rows::Mixed;

// Mixes a word by the row g and converts it to the row h, by the product of g's inverse row and h: the word mixed by h, unless one of the two
// rows is refused.
pub fn word_converted(g: [u8; 8], h: [u8; 8], w: u64) -> Mixed
    ensures { result ≡ mixed h w (first_of (row_refusal g) (row_refusal h)) }
{
    let x = rows::inverse(g);
    let inverse = x.row;
    let m = rows::mix(g, w);
    rows::mix(rows::product(inverse, h), m.word)
}

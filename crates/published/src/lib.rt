// What the article publishes, as constants: Table 1 with its inverse, the row and the four constants of SL. The definitions are the crate
// field's.
//
// A `const` array is stored anew wherever it is named, so the outermost function of an operation
// calls for the tables it needs once, and lends them down.
#![tactic(auto)]

mod inverse;
mod table1;

ghost use Rattle.std.specs.Prelude.{◌≡◌};
ghost use Rattle.field.specs.Published as published;

pub use inverse::sbox_inverse;
pub use table1::sbox;

// The coefficients g_0 to g_7.
const ROW: [u8; 8] = [0x01, 0x01, 0x03, 0x0F, 0x0A, 0x1F, 0x0F, 0x0C];

// The XOR constants of SL at words 0 to 3.
const CONSTANTS: [u64; 4] = [
    0x0000000000000000,
    0x1111111111111111,
    0x2222222222222222,
    0x8888888888888888,
];

pub fn row() -> [u8; 8]
    ensures { result ≡ published.row }
{
    ROW
}

pub fn constants() -> [u64; 4]
    ensures { result ≡ published.constants }
{
    CONSTANTS
}

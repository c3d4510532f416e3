//! Finds the line and column of a byte of a file.

ghost use Rattle.std.specs.Prelude.{◌≡◌};
ghost use Rattle.deb_explain.specs.Texts.{spot_behind};

/// A byte of a file, by its line and its column in that line, in bytes. Both are counted from 1.
#[derive(Clone, Copy)]
pub struct Spot {
    pub line: u128,
    pub column: u128,
}

/// Returns the spot after some bytes of a file that begin at this line and column.
pub(crate) fn spot_behind(line: u64, column: usize, bytes: &[u8]) -> Spot
    ensures { result ≡ spot_behind (record { line = line; column = column }) bytes.now }
{
    let mut spot = Spot {
        line: line as u128,
        column: column as u128,
    };
    for byte in bytes {
        if *byte == b'\n' {
            spot.line += 1;
            spot.column = 1;
        } else {
            spot.column += 1;
        }
    }
    spot
}

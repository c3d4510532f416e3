//! What a byte is in a relation: one of a package's name, of another run of a name, or of none.

ghost use Rattle.std.specs.Prelude.{◌≡◌};
ghost use Rattle.deb_base.specs.PackageNames.{is_package_byte};
ghost use Rattle.deb_relation.specs.Reading.{is_in_name};

// A `p` is at the index of each byte of package names, an `n` at those of other bytes in the run of
// a name, and a hyphen at those of the bytes that end it.
static NAME_BYTES: [u8; 256] = *b"\
    nnnnnnnnn--nnnnnnnnnnnnnnnnnnnnn\
    -nnnnnnn--np-ppnpppppppppp-n-n-n\
    nnnnnnnnnnnnnnnnnnnnnnnnnnn-n-nn\
    nppppppppppppppppppppppppppn-nnn\
    nnnnnnnnnnnnnnnnnnnnnnnnnnnnnnnn\
    nnnnnnnnnnnnnnnnnnnnnnnnnnnnnnnn\
    nnnnnnnnnnnnnnnnnnnnnnnnnnnnnnnn\
    nnnnnnnnnnnnnnnnnnnnnnnnnnnnnnnn";

/// Whether a byte is allowed in the name of a package: `a` to `z`, `0` to `9`, `+`, `-` and `.`.
pub(crate) fn is_package_byte(byte: u8) -> bool
    ensures { result ≡ is_package_byte byte }
{
    NAME_BYTES[byte as usize] == b'p'
}

/// Whether a byte is in the run of a name: all but white space and `,` `|` `(` `)` `[` `]` `<` `>`
/// `:`.
pub(crate) fn is_in_name(byte: u8) -> bool
    ensures { result ≡ is_in_name byte }
{
    NAME_BYTES[byte as usize] != b'-'
}

//! Decimal numbers of any size.

ghost use Rattle.std.specs.Prelude.{◌≡◌, Some, IfOk, IfErr, IsTrue};
ghost use Rattle.std.specs.Char.{is_ascii_digit};
ghost use Rattle.std.specs.List.{list_all};
ghost use Rattle.deb_version.specs.Parts.{value_of};
ghost use Rattle.deb_version.specs.Canonical.{digits_of};
ghost use Rattle.deb_field.specs.Numbers.{SpellsNumber, are_digits, number_refusal};

use crate::canon::Canon;
use crate::one_line::refusal_of_line;
use deb_base::Code;
use std::alloc::AllocError;

/// A decimal number of any size, without leading zeros. It means its value.
#[derive(Clone, Copy, Debug)]
pub struct Number<'a> {
    digits: &'a [u8],
    ghost well_formed: { IsTrue (are_digits digits.now) },
    ghost canonical: { digits_of (value_of digits.now) ≡ digits.now },
}

impl<'a> Number<'a> {
    ghost use Rattle.deb_field.specs.Shown.{number_value};

    /// Parses one or more decimal digits, with or without leading zeros.
    ///
    /// # Errors
    ///
    /// `NotOneLine` for a body of more than one line, else `BadNumber` if it isn't one or more
    /// digits.
    pub fn parse(body: &'a [u8]) -> Result<Number<'a>, Code>
        ensures ok { IfOk result (λ number. SpellsNumber body.now (number_value number)) }
        ensures refused { IfErr result (λ code. number_refusal body.now ≡ Some code) }
    {
        if !are_digits(body) {
            return Err(refusal_of_line(body, Code::BadNumber));
        }
        Ok(Number {
            digits: without_leading_zeros(body),
        })
    }

    /// Returns the digits of the number, without leading zeros; for zero, one `0`.
    pub fn digits(&self) -> &'a [u8]
        ensures { result.now ≡ digits_of (number_value self.now) }
    {
        self.digits
    }
}

impl Canon for Number<'_> {
    ghost use Rattle.std.specs.Prelude.{ℕ};
    ghost use Rattle.deb_field.specs.NumberLaw.{number_law, number_spelled};
    ghost use Rattle.deb_field.specs.Shown.{number_value};

    ghost Kinds = { Unit {0} };

    ghost Meaning = { ℕ };

    ghost kind = { λ _. tt };

    ghost meaning = { number_value };

    ghost Spells = { λ _. SpellsNumber };

    ghost text_of = { digits_of };

    ghost law = { λ _. number_law };

    ghost spelled = { λ n. (n.digits.now, number_spelled n.digits.now n.well_formed) };

    fn canon_len(&self) -> u64 {
        self.digits.len() as u64
    }

    fn canon_into(&self, out: &mut Vec<u8>) -> Result<(), AllocError> {
        out.extend_from_slice(self.digits)
    }
}

/// Whether a text is one or more decimal digits.
fn are_digits(text: &[u8]) -> bool
    ensures { result ≡ are_digits text.now }
{
    !text.is_empty() && has_only_digits(text)
}

fn has_only_digits(text: &[u8]) -> bool
    ensures { result ≡ list_all is_ascii_digit text.now }
{
    text.iter().all(|byte| byte.is_ascii_digit())
}

/// Digits without their leading zeros; of zeros alone one is left.
fn without_leading_zeros(digits: &[u8]) -> &[u8]
    requires { IsTrue (are_digits digits.now) }
    ensures { result.now ≡ digits_of (value_of digits.now) }
{
    let mut rest = digits;
    while rest.len() > 1 && rest[0] == b'0' {
        rest = &rest[1..];
    }
    rest
}

//! The numbers of the kinds of documents.

ghost use Rattle.std.specs.Prelude.{◌≡◌, IfNone, IfSome};
ghost use Rattle.debctl_ffi.specs.Documents.{IsNoKind, kind_number};

use deb_field::Doc;

/// The kind of document of a number: those of `deb_kind` in `include/debctl.h`.
pub(crate) fn kind_of(number: u8) -> Option<Doc>
    ensures some { IfSome result (λ doc. number ≡ kind_number doc) }
    ensures none { IfNone result (IsNoKind number) }
{
    match number {
        0 => Some(Doc::Binary),
        1 => Some(Doc::Packages),
        2 => Some(Doc::Source),
        3 => Some(Doc::Sources),
        4 => Some(Doc::Any),
        5 => Some(Doc::Status),
        _ => None,
    }
}

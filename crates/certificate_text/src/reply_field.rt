ghost use Rattle.std.specs.Prelude.{◌≡◌, ◌≤◌};
ghost use Rattle.text.specs.Left.{fields_left};
ghost use Rattle.text.specs.Taken.{Took};
ghost use Rattle.truth.specs.Limits.{max_width};
ghost use Rattle.certificate_text.specs.ReplyField.{reply_of, take_reply};
ghost use Rattle.certificate_text.specs.Bits.{field_of};

use crate::bits::Bits;
use entries::entry::Reply;
use faults::fault::Fault;
use text::fields::Fields;

// The reply of the digits that were read, or of none, for a block of this width; none where it is not as it is due.
pub(crate) fn reply_of(read: Option<Bits>, owed: bool, width: usize) -> Option<Reply>
    requires { width ≤ max_width }
    ensures { result ≡ reply_of owed width (field_of read.entry) }
{
    match (read, owed) {
        (None, false) => Some(Reply::None),
        (Some(bits), true) if bits.digits.len() == width => Some(Reply::Value(bits.value())),
        _ => None,
    }
}

// Takes the next field, which has to be digits, or `-` for none.
pub(crate) fn take_reply<'a>(fields: &mut Fields<'a>) -> Result<Option<Bits<'a>>, Fault>
    ensures { Took fields.old fields.new result (take_reply (fields_left fields.old)) (λ r. (field_of r, fields_left fields.new)) }
{
    match fields.field()? {
        b"-" => Ok(None),
        field => Ok(Some(Bits::of(field).ok_or(fields.fault())?)),
    }
}

// The types that `field` returns. They have a module of their own because `field` and `Field` cannot share one.

ghost use Rattle.std.specs.Prelude.{◌≡◌};
ghost use Rattle.tib_qform.specs.InNumbers.{field_answer};

use reading::Fault;
use tib_field::Span;

// A field of a message: its fid, its type, and its data.
#[derive(Clone, Copy, Debug, PartialEq, Eq)]
pub struct Field {
    pub fid: u64,
    pub kind: u64,
    pub data: Span,
}

// The same in numbers, as the C function returns it: a refusal and its place, or 0, 0 and the field. Places count from the start of the lent
// buffer.
#[derive(Clone, Copy)]
pub struct FieldAnswer {
    pub refusal: u64,
    pub place: u64,
    pub fid: u64,
    pub kind: u64,
    pub data_place: u64,
    pub data_length: u64,
}

// The field in numbers, by the result of reading it.
impl From<Result<Field, Fault>> for FieldAnswer {
    ghost from_gives = { λ r answer. answer ≡ field_answer r };

    fn from(read: Result<Field, Fault>) -> FieldAnswer {
        match read {
            Ok(field) => FieldAnswer {
                refusal: 0,
                place: 0,
                fid: field.fid,
                kind: field.kind,
                data_place: field.data.place,
                data_length: field.data.length,
            },
            Err(fault) => FieldAnswer {
                refusal: fault.refusal.number(),
                place: fault.place,
                fid: 0,
                kind: 0,
                data_place: 0,
                data_length: 0,
            },
        }
    }
}

// The values of a call's operands, word after word of its form.
ghost use Rattle.std.specs.Prelude.{◌≡◌};
ghost use Rattle.call_text.specs.Values.{begun, again, pushed, with_operand, values_in, read_in, form_in};

use crate::asked::Fault;
use crate::operand::{Read, read_operand};
use crate::word_list::word_at;

// The first `count` of `list` are values; `next` is the place behind them. An array, because nothing here allocates.
#[derive(Clone, Copy)]
pub struct Values {
    pub list: [u64; 10],
    pub count: usize,
    pub next: usize,
}

impl Values {
    // None yet, from a place on.
    pub fn new(next: usize) -> Values
        ensures { result ≡ begun next }
    {
        Values {
            list: [0; 10],
            count: 0,
            next,
        }
    }

    // The first value alone.
    pub fn first(self) -> Values
        ensures { result ≡ again self }
    {
        Values { count: 1, ..self }
    }

    // One value more; ten are kept.
    #[tactic(auto, unfolding(crate::specs::Values::pushed))]
    fn pushed(self, value: u64, next: usize) -> Values
        ensures { result ≡ pushed value next self }
    {
        let count = self.count;
        if 10 <= count {
            return self;
        }
        let mut list = self.list;
        list[count] = value;
        Values {
            list,
            count: count + 1,
            next,
        }
    }

    // With the operand of a letter.
    #[tactic(auto, unfolding(crate::specs::Values::with_operand))]
    fn with(self, line: &[u8], letter: u8) -> Result<Values, Fault>
        ensures { result ≡ with_operand line.now self letter }
    {
        match read_operand(line, self.next, letter)? {
            Read::One(value, next) => Ok(self.pushed(value, next)),
            Read::Two(first, second, next) => Ok(self.pushed(first, next).pushed(second, next)),
        }
    }
}

// The values of the operands of a form, behind those that are there.
fn read_values(line: &[u8], values: Values, form: &[u8]) -> Result<Values, Fault>
    ensures { result ≡ values_in line.now values form.now }
{
    let mut so_far = values;
    for &letter in form {
        so_far = so_far.with(line, letter)?;
    }
    Ok(so_far)
}

// The form at a place of a list of forms.
#[tactic(auto, unfolding(crate::specs::Values::read_in))]
fn read_in(line: &[u8], values: Values, forms: &[u8], place: u64) -> Result<Values, Fault>
    ensures { result ≡ read_in line.now values forms.now place }
{
    let word = word_at(forms, place);
    read_values(line, values, &forms[word.from..word.to])
}

// The form of the call at a place: of the four kinds of creation, then of the names.
#[tactic(auto, unfolding(crate::specs::Values::form_in, crate::specs::WordList::codes))]
pub fn read_form(line: &[u8], values: Values, place: u64) -> Result<Values, Fault>
    ensures { result ≡ form_in line.now values place }
{
    read_in(
        line,
        values,
        b"@0ZFCT @1ZFCT @ZFCTfol @Z SZ L SL SL SLA 0 RH N 0 PK SZ P PD P PSE PSE PD P PDW PDLW P PDQ PQ PDF PD PD PD PDB",
        place,
    )
}

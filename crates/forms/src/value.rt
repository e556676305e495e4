// What a field says, as an argument of a call. Field i is counted from 0.
// The casts in this file lose nothing: what is cast is below 256. An index is a number with a clause: a type of indexes has no plainer form.
ghost use Rattle.std.specs.Prelude.{◌≡◌, ◌<◌};
ghost use Rattle.forms.specs.Form.{most_fields};
ghost use Rattle.forms.specs.Value.{byte_in, size_in, number_or};

use crate::Form;

// How many values a byte has.
const BYTE_VALUES: u64 = 256;

// The most bytes of a field or of an output.
const MOST_LENGTH: u64 = 128;

// Field i as a byte.
pub fn byte(form: Form, i: usize) -> u8
    requires { i < most_fields }
    ensures { result ≡ byte_in form i }
{
    (form.numbers[i] % BYTE_VALUES) as u8
}

// Field i as a length or a count of bytes.
pub fn size(form: Form, i: usize) -> usize
    requires { i < most_fields }
    ensures { result ≡ size_in form i }
{
    form.numbers[i].min(MOST_LENGTH) as usize
}

// Field i as a number, or the default.
pub fn number_or(form: Form, i: usize, default: u64) -> u64
    requires { i < most_fields }
    ensures { result ≡ number_or default form i }
{
    if form.marked[i] {
        return default;
    }
    form.numbers[i]
}

// What stands at the front of bytes: a number, a name, and bytes behind their number.
ghost use Rattle.wire_form.specs.Spelling.{number, IsNumber};
ghost use Rattle.wire_form.specs.Parts.{IsName};
ghost use Rattle.wire_form.specs.Reading.{Reads};
ghost use Rattle.saved_form.specs.Saved.{sized, IsSized};

use dots::{Name, Refusal};

// A number, with the rest.
pub(crate) fn number_at(bytes: &[u8]) -> Result<(u64, &[u8]), Refusal>
    ensures { Reads (λ r. (r.0, r.1.now)) number IsNumber bytes.now result }
{
    if bytes.len() < 8 {
        return Err(Refusal::NotAMessage);
    }
    let (front, rest) = bytes.split_at(8);
    let number = u64::from_be_bytes([
        front[0], front[1], front[2], front[3], front[4], front[5], front[6], front[7],
    ]);
    Ok((number, rest))
}

// A name, with the rest.
pub(crate) fn name_at(bytes: &[u8]) -> Result<(Name, &[u8]), Refusal>
    ensures { Reads (λ r. (r.0, r.1.now)) number IsName bytes.now result }
{
    let (number, rest) = number_at(bytes)?;
    let Some(name) = Name::new(number) else {
        return Err(Refusal::NotAMessage);
    };
    Ok((name, rest))
}

// As many bytes as the number before them says, with the rest.
pub(crate) fn sized_at(bytes: &[u8]) -> Result<(&[u8], &[u8]), Refusal>
    ensures { Reads (λ r. (r.0.now, r.1.now)) sized IsSized bytes.now result }
{
    let (length, rest) = number_at(bytes)?;
    if (rest.len() as u64) < length {
        return Err(Refusal::NotAMessage);
    }
    Ok(rest.split_at(length as usize))
}

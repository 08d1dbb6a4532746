// Permutations as texts.
ghost use Rattle.std.specs.Prelude.{◌≡◌, ◌++◌, codes, decimal, false, true, IfOk};
ghost use Rattle.chyp_print.specs.Printing.{permutation_text, with_commas};
ghost use Rattle.chyp_print.specs.Reading.{AreSmall};

use chyp_base::NoMemory;
use chyp_term::Perm;
use itoa::Buffer;

/// The places of every permutation are below 2^64, since it has fewer.
pub(crate) fn small(perm: &Perm)
    ensures { AreSmall perm.now }
{
    let _ = perm.places();
}

/// Adds the text of the permutation with these places.
pub(crate) fn push_permutation(out: &mut Vec<u8>, places: &[u32]) -> Result<(), NoMemory>
    ensures { IfOk result (λ _. out.new.items ≡ out.old.items ++ permutation_text places.now) }
{
    match places {
        [] => Ok(out.extend_from_slice(b"id0")?),
        [0] => Ok(out.extend_from_slice(b"id")?),
        [1, 0] => Ok(out.extend_from_slice(b"sw")?),
        _ => {
            out.extend_from_slice(b"sw[")?;
            push_places(out, places)?;
            Ok(out.extend_from_slice(b"]")?)
        }
    }
}

/// Adds numbers with commas between them.
fn push_places(out: &mut Vec<u8>, places: &[u32]) -> Result<(), NoMemory>
    ensures { IfOk result (λ _. out.new.items ≡ out.old.items ++ with_commas places.now) }
{
    for (i, place) in places.iter().enumerate() {
        push_place(out, *place, i > 0)?;
    }
    Ok(())
}

/// Adds a number, behind a comma unless it is the first one.
fn push_place(out: &mut Vec<u8>, place: u32, comma: bool) -> Result<(), NoMemory>
    ensures first { IfOk result (λ _. comma ≡ false → out.new.items ≡ out.old.items ++ decimal place) }
    ensures next { IfOk result (λ _. comma ≡ true → out.new.items ≡ out.old.items ++ (codes "," ++ decimal place)) }
{
    if comma {
        out.push(b',')?;
    }
    let mut buffer = Buffer::new();
    Ok(out.extend_from_slice(buffer.format(place).as_bytes())?)
}

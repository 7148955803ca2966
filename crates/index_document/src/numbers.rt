//! Numbers that are kept in 32 bits. One that doesn't fit finds no memory, however much there is: a document of an index has no more
//! words, rows and leaves than such numbers count.
ghost use Rattle.std.specs.Prelude.{◌≡◌, ◌∷◌, ◌++◌, [], IfOk, OnOk};

use ft_base::Memory;

/// The number in 32 bits, where it fits.
pub(crate) fn in_32_bits(number: usize) -> Result<u32, Memory>
    ensures { IfOk result (λ same. same ≡ number) }
{
    match u32::try_from(number) {
        Ok(same) => Ok(same),
        Err(_) => Err(Memory),
    }
}

/// Puts the number after the last one.
pub(crate) fn push_number(numbers: &mut Vec<u32>, number: usize) -> Result<(), Memory>
    ensures { OnOk result (numbers.new.items ≡ numbers.old.items ++ number ∷ []) }
{
    numbers.push(in_32_bits(number)?)?;
    Ok(())
}

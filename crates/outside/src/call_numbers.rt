ghost use Rattle.std.specs.Prelude.{◌↔◌, IsTrue, Contains};

// A number that is no `u32` is in no list of them.
pub(crate) fn is_listed(numbers: &[u32], number: u64) -> bool
    ensures { IsTrue result ↔ Contains numbers.now number }
{
    match u32::try_from(number) {
        Ok(small) => numbers.contains(&small),
        Err(_) => false,
    }
}

//! Lists that grow by what one worker hands back.
ghost use Rattle.std.specs.Prelude.{◌≡◌, ◌∷◌, ◌++◌, [], IfOk};

use std::alloc::AllocError;

/// The list with one more at its end.
pub fn with_one<T: Drop>(list: Vec<T>, one: T) -> Result<Vec<T>, AllocError>
    ensures { IfOk result (λ v. v.items ≡ list.items ++ one ∷ []) }
{
    let mut list = list;
    list.push(one)?;
    Ok(list)
}

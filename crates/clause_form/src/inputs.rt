//! The literals that a node joins.
ghost use Rattle.std.specs.Prelude.{◌≡◌, ◌<◌, ◌^◌, ◌++◌, map, All, OnOk};
ghost use Rattle.clause_form.specs.Signs.{sign};
ghost use Rattle.clause_form.specs.NodeClauses.{premises};
ghost use Rattle.clause_form.specs.Plain.{signs};

use literals::Literal;
use std::alloc::AllocError;

/// Adds that each of these atoms is true, or false.
pub(crate) fn add_all(
    inputs: &mut Vec<Literal>,
    numbers: &[u32],
    positive: bool,
) -> Result<(), AllocError>
    requires { All (λ n. n < 2 ^ 31) numbers.now }
    ensures { OnOk result (signs inputs.new.items ≡ signs inputs.old.items ++ map (λ i. sign i positive) numbers.now) }
{
    for number in numbers {
        inputs.push(Literal::new(*number, positive))?;
    }
    Ok(())
}

/// Adds that the premises of an implication are true, and its conclusion is false.
pub(crate) fn add_premises(inputs: &mut Vec<Literal>, numbers: &[u32]) -> Result<(), AllocError>
    requires { All (λ n. n < 2 ^ 31) numbers.now }
    ensures { OnOk result (signs inputs.new.items ≡ signs inputs.old.items ++ premises numbers.now) }
{
    for i in 0..numbers.len() {
        inputs.push(Literal::new(numbers[i], i + 1 < numbers.len()))?;
    }
    Ok(())
}

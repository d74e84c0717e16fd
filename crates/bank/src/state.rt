ghost use Rattle.vectors.specs.Sets.{members, Usable};
ghost use Rattle.bank.specs.Nesting.{Nested};

use vectors::VectorSet;

mod calls;
mod questions;

// Requests, vectors in service and TPR. Neither set has a vector below 10h,
// and at most one vector of each class is in service.
// No `impl Model`: the view holds sets as membership tests, and a model's value can hold no function.
#[derive(Clone, Copy)]
pub struct Bank {
    requests: VectorSet,
    service: VectorSet,
    tpr: u8,
    ghost requests_usable: { Usable (members requests) },
    ghost service_usable: { Usable (members service) },
    ghost nested: { Nested (members service) },
}

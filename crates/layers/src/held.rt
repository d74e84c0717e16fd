// What a migration layer holds of its own: whether it is frozen, what was posted to it then, all usable, and whether it rang.
ghost use Rattle.vectors.specs.Sets.{members, AllUsable};

use vectors::VectorSet;

// No `impl Model`: the layer's own fields hold the set as a function, and a model's value can hold none.
#[derive(Drop)]
pub struct Held {
    pub(crate) frozen: bool,
    pub(crate) set: VectorSet,
    pub(crate) rung: bool,
    ghost usable: { AllUsable (members set) },
}

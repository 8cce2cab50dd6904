// The host's side of the handshake, for an inserter of any make. The allocator is handed to each function beside the inserter, as
// it is wherever memory is asked for; a value of both would be taken apart again by whatever needs one. Clauses name what the
// inserter means by `I.meaning`: a meaning holds functions, so no model can have it as its value.
#![tactic(auto)]

pub mod deliver;
pub mod evening;
pub mod line;
pub mod play;

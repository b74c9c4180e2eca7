// The static library: the operations under the names of include/sheet.h. A crate is a library or a static library, so each export here calls the function of
// its name in crate `sheet`, and promises what that promises.
#![tactic(auto)]

mod asking;
mod changing;
mod diagrams;
mod equations;
mod logging;

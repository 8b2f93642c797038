//! The module that rewriting emits, and its bytes: here all passes are put together.
//!
//! Each function that may pause is written with guards and frames, every other stays, and the runtime's parts stand behind. The answer
//! is what `EmittedAs` of `emitted_form` says by the policy of the settings: under `all` that is `asyncified` of its `Emitted`, from some
//! slim pieces. `asyncify_module` answers the module, or that a name is reserved, or the first function that would have more than 50,000
//! parameters and locals.
//!
//! `emit_module` answers its bytes, without the module: it writes each function as it is rewritten, puts it as an entry of the code
//! section, and drops it, so that no two rewritten functions are in memory together; then the source's bodies are dropped too, and the
//! other sections are written around the entries. The answer is exactly the bytes of that module.
//!
//! Modules are valid ones here; which sources are taken is `transform_command`'s matter.
//!
//! - `sink`, `pass`: what takes functions as they are emitted, and the one loop that hands them over.
//! - `fault`, `whole`, `layouts`: why nothing was rewritten, the module, and the frames of its functions for who asks for them.
//! - `byte_fault`, `entries`, `bare`, `bytes_whole`: why no bytes were written, functions as entries of the code section, a module without
//!   their bodies, and the bytes.
#![tactic(auto)]

mod bare;
mod byte_fault;
mod bytes_whole;
mod entries;
mod fault;
mod layouts;
mod pass;
mod sink;
mod whole;

pub use byte_fault::EmitFault;
pub use bytes_whole::{Emitted, emit_module};
pub use fault::RewriteFault;
pub use func_rewrite::FlatFault;
pub use layouts::FuncLayout;
pub use whole::{Instrumented, Rewritten, asyncify_module, rewrite_module};

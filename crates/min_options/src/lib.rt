//! How does a run of the dead code remover compress, and what does it take to have no side effects?
//!
//! The options are those of the upstream crate, in its names, with its three choices `smallest`, `safest` and `dce`
//! (`specs/Options.antt` says which each sets). A copy has the same options. It stands on `js_syntax`, for its texts.
#![tactic(auto)]

mod copies;
mod options;

pub use options::{
    CompressOptions, CompressOptionsKeepNames, CompressOptionsUnused, PropertyReadSideEffects,
    TreeShakeOptions,
};

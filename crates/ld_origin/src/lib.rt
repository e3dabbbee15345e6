//! Where traces come from: the comment `# from FILE LINE` behind a header, read and written.
#![tactic(auto)]

mod origin;

pub use origin::{Home, Origin, lacking, origin_of, write_origin};

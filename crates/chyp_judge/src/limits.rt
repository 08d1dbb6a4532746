// What no step of a rewrite may pass.
pub use chyp_simp::{MOST_PLACEMENTS, MOST_REWRITES};

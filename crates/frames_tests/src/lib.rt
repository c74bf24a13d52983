// Examples of frames in use: what writing leaves in a buffer, and that it reads back. Reading alone is checked on tables of
// bytes, by the programs inspect and frame_vectors.
#![tactic(auto)]

#[cfg(test)]
mod kinds;
#[cfg(test)]
mod writing;

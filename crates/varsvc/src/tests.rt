//! Tests of the program: over words, scripts, images in memory and files.
mod calls;
mod hostile;
mod images;
mod numbers;
mod plays;
mod program;
mod random;
mod runs;
mod words;

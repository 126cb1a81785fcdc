//! The journal of lines, over a file in memory and over files of the system, and what adopts a kernel's modules.

mod adoption;
mod damage;
mod files;
mod following;
mod lines;

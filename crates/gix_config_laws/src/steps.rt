//! Public calls that change a file, each as a step of the main theorem: a function whose body is the call, and whose clause says which of a
//! list of calls it is. So the steps that [`crate::headline`] speaks of are those that a program makes.

pub mod files;
pub mod sections;
pub mod values;

//! The check of arrays: which lengths, values, names and slots the declaration of an array has, or its first reason for refusal.
//!
//! Each function here is one definition of `qt_typing`, of the same name: it answers what that finds, or its refusal, or want of memory.
//! [`lengths::element_count`] counts the elements; [`lists::array_values`] types the list that is given for a whole array, item by item;
//! [`arrays::array_of`] declares the array. What is kept is the list that is written, however many elements the array has.
//!
//! The check of statements calls it.
#![tactic(auto)]

pub mod arrays;
pub mod lengths;
pub mod lists;

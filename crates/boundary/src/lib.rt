// A measuring door and no interface: the calls that a program in another language makes to time this code, with numbers, byte slices and lent rows.
#![tactic(auto)]

mod count;
mod dropped;
mod frame;
mod merged;
mod pointers;
mod sum;

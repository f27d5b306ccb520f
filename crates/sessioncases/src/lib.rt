// Sessions in use: over our sheets, and over a sheet that is implemented here.
#![tactic(auto)]

#[cfg(test)]
mod one;
#[cfg(test)]
mod tests;

#![tactic(auto)]

// Every ready queue run on the same calls: a long script and a table of cases. The answers must not tell the queues apart.
#[cfg(test)]
mod cases;
#[cfg(test)]
mod script;
#[cfg(test)]
mod tests;

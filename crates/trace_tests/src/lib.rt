// The tests of `trace_cli`, and of worlds and replicas below it, apart from them, so that they are proved without proving them again.
#![tactic(auto)]

#[cfg(test)]
mod tests;

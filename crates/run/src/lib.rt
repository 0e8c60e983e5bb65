// The calls of a run, one at a time, and the line that is written of each.
// A call of any lawful server is made as its law says and its line stands behind the lines before it; of a
// named server both are known by equality. The run of a whole trace, which makes all calls, is still to come.
#![tactic(auto)]

mod noting;
mod running;

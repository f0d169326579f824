// What this library promises, in one place: the small facts of the definitions, a sequence of calls on one channel, what is said of every entry.
// It has no code of its own: the statements are in specs/, and speak of the contracts below it and of the definitions that these cite.

#![tactic(auto)]

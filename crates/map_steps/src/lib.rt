// The calls on a map: what they answer, and, in specs/, what each answer and each refusal means.
#![tactic(auto)]

pub mod reply;

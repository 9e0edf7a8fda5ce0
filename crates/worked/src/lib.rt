// The cases of the classroom sheet, as one table in specs/, and its proof. No code.
#![tactic(auto)]

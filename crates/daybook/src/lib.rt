// What a roll holds, what each call makes of it, and the daybook by which a row of calls is read; all of it is in specs/.
#![tactic(auto)]

// No code: windows-1252 and UTF-16 (section 14), the table and both conversions, in specs/.

#![tactic(auto)]

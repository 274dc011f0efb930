// No code: what a tenant map's calls add up to. Adding alters no older version, a date is answered by the highest version whose first date is not later, going back
// adds a version equal to the old one, and any sequence of calls answers as a plain list of versions does.
#![tactic(auto)]

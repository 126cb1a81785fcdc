//! Catalogues and modules.dep texts that are refused, each with its first fault.

pub(super) const ROWS: &str = r"
~ two names are one in normal form
%catalogue
module q
module a-b
module a_b
%plan a
Duplicate { line: 3 }
~ a module exports a symbol on two lines
%catalogue
module q
exports x
# x
exports y x
%plan a
TwiceExported { line: 4 }
~ a line exports a symbol twice
%catalogue
module q
exports x x
%plan a
TwiceExported { line: 2 }
~ two modules export a symbol
%catalogue
module p
exports x
module q
exports x
%plan a
TwiceExported { line: 4 }
~ softneeds want version 2
%catalogue
module a
softneeds d b
module c
softneeds a
module d
%plan a
Bad { line: 2 }
~ a second version
%catalogue
version 2
version 2
%plan a
Bad { line: 2 }
~ a version behind a module
%catalogue
module a
version 2
%plan a
Bad { line: 2 }
~ a version with a leading zero
%catalogue
version 02
%plan a
Bad { line: 1 }
~ a size before any module
%catalogue
size 1
%plan a
Bad { line: 1 }
~ a second size
%catalogue
module a
size 1
size 1
%plan a
Bad { line: 3 }
~ a size past 32 bits
%catalogue
module a
size 4294967296
%plan a
Bad { line: 2 }
~ a size with leading zeros
%catalogue
module a
size 00000000007
%plan a
Bad { line: 2 }
~ two parameters are one in normal form
%catalogue
module a
param x-y int
param x_y bool
%plan a
Bad { line: 3 }
~ a kind of version 3 in version 1
%catalogue
module a
param x long
%plan a
Bad { line: 2 }
~ a kind of version 3 in version 2
%catalogue
version 2
module a
param x uint
%plan a
Bad { line: 3 }
~ an array in version 1
%catalogue
module a
param x int[]
%plan a
Bad { line: 2 }
~ an array in version 2
%catalogue
version 2
module a
param x bool[]
%plan a
Bad { line: 3 }
~ a kind of version 3 before any module
%catalogue
version 3
param x uint
%plan a
Bad { line: 2 }
~ an array of texts
%catalogue
version 3
module a
param x charp[]
%plan a
Bad { line: 3 }
~ an array of arrays
%catalogue
version 3
module a
param x int[][]
%plan a
Bad { line: 3 }
~ an array of nothing
%catalogue
version 3
module a
param x []
%plan a
Bad { line: 3 }
~ an array with a blank in its word
%catalogue
version 3
module a
param x int []
%plan a
Bad { line: 3 }
~ a kind that no version has
%catalogue
version 3
module a
param x u64
%plan a
Bad { line: 3 }
~ a version that is not there
%catalogue
version 4
%plan a
Bad { line: 1 }
~ two versions
%catalogue
version 2
version 3
%plan a
Bad { line: 2 }
~ a word behind `permanent`
%catalogue
module a
permanent yes
%plan a
Bad { line: 2 }
~ two names of a module
%catalogue
module a b
module a
%plan a
Bad { line: 1 }
~ no colon
%catalogue
%dep
kernel/a.ko kernel/b.ko
%plan a
NoColon { line: 1 }
~ nothing before the colon
%catalogue
%dep
a.ko:
:
%plan a
EmptyName { line: 2 }
~ nothing before the ending
%catalogue
%dep
kernel/.ko: a.ko
%plan a
EmptyName { line: 1 }
~ nothing behind the last slash
%catalogue
%dep
a.ko: b.ko kernel/
%plan a
EmptyName { line: 1 }
~ a second line of a name in normal form
%catalogue
%dep
a-b.ko:

x/a_b.ko.gz: c.ko
%plan a
SecondLine { line: 3 }
~ an empty name comes before a second line
%catalogue
%dep
a.ko:
a.ko: .ko
%plan a
EmptyName { line: 2 }
";

//! Soft items: which are taken, where they stand, and how they are marked.

pub(super) const ROWS: &str = r"
~ soft items stand before and after their module
%catalogue
module a
module c
module d
module e
%conf
softdep c pre: a b post: d e
options c debug=1
%plan c
a soft
c hard debug=1
d soft
e soft
~ the words of the command stand between soft items
%plan c level=4
a soft
c hard debug=1 level=4
d soft
e soft
~ two name each other as pre items
%catalogue
module a
module b
%conf
softdep a pre: b
softdep b pre: a
%plan a
b soft
a hard
~ two name each other as post items
%catalogue
module a
module b
%conf
softdep a post: b
softdep b post: a
%plan a
a hard
b soft
~ the first softdep line counts
%catalogue
module a
module b
module c
%conf
softdep a pre: b
softdep a pre: c post: c
%plan a
b soft
a hard
~ a soft item brings its dependencies
%catalogue
module a
module b
module c
%dep
b.ko: c.ko
%conf
softdep a pre: b
%plan a
c soft
b soft
a hard
~ a soft item over an install line is passed over
%catalogue
module a
module b
module c
%dep
b.ko: c.ko
%conf
softdep a pre: b c
install c /bin/true
%plan a
a hard
~ a soft item over a missing module is passed over
%catalogue
module a
module b
module c
%dep
b.ko: gone.ko
%conf
softdep a pre: b
%plan a
a hard
~ a soft item in a circle is passed over
%catalogue
module a
module b
module c
%dep
b.ko: c.ko
c.ko: b.ko
%conf
softdep a pre: b
%plan a
a hard
~ a pre item that needs its user is passed over
%catalogue
module a
module b
module c
%dep
b.ko: a.ko
%conf
softdep a pre: b
%plan a
a hard
~ a post item that needs its user comes after it
%catalogue
module a
module b
module c
%dep
b.ko: a.ko
%conf
softdep a post: b
%plan a
a hard
b soft
~ what is reached hard too is hard
%catalogue
module a
module b
module c
%dep
a.ko: b.ko
b.ko: c.ko
%conf
softdep a pre: b
%plan a
c hard
b hard
a hard
~ softneeds are soft items, in turn
%catalogue
version 2
module a
softneeds d b
module c
softneeds a
module d
%plan c
d soft
a soft
c hard
~ a softdep line stands in for softneeds
%catalogue
version 2
module a
softneeds d b
module c
softneeds a
module d
%conf
softdep c post: d
%plan c
c hard
d soft
~ a softdep line without marks stands in for softneeds
%catalogue
version 2
module a
softneeds d b
module c
softneeds a
module d
%conf
softdep c d
%plan c
c hard
~ softneeds lift no install line
%catalogue
version 2
module a
softneeds d b
module c
softneeds a
module d
%conf
install c /bin/true
%plan c
install c
";

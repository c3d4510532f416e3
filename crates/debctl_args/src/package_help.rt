//! What the help of the commands on packages prints after their options.

pub(crate) const QUERY_HELP: &str = "\
A relation is a list of groups, separated by commas. For each group, in the byte
order of their canonical texts, one line is printed:
  met GROUP      a package of an index meets the group
  unmet GROUP    no package meets it
  ignored GROUP  none of its alternatives applies to the architecture and profiles
After each `met` line there is a line ` NUMBER PACKAGE VERSION ARCHITECTURE` for
each package that meets the group; NUMBER is its position in the index, from 1.
In a relation, the former operators `<` and `>` mean `<=` and `>=`.

Several indexes are read in the order given. NUMBER counts the packages of all of them,
and each line about a package ends in ` @K` if the package is in the K-th index.

VERSION is canonical: the same text for all spellings of equal versions. apt looks for
the text in its lists, so give it what `--spelled` prints: the version as the index
spells it, here and among the reasons.

With `--why` there are lines ` ALTERNATIVE: ..` below each `unmet` or `ignored` line.
For an alternative that applies, they say why each package that has or provides its
name doesn't meet it. For one that doesn't apply, they report each item of its list
that names an architecture with its system, such as `linux-amd64`.

`--relation-from PATH` reads the relation from a file of at most 16,777,216 bytes;
the system takes no argument of more than 131,071. All other arguments are then
indexes.

Debian's architectures are amd64, arm64, armel, armhf, i386, loong64, mips64el,
ppc64el, riscv64, s390x and others, which `dpkg-architecture -L` lists. Any other
name is accepted too. Names are compared exactly: the list `[linux-amd64]` doesn't
apply to amd64.

Exit statuses:
  0  no group is unmet
  1  a group is unmet
  2  an argument or an index is refused, or an architecture list of the relation
     has a wildcard: standard error has `line N: CODE NAME`, and nothing is
     printed. Line 0 means an argument. If there are several indexes,
     `index K: ` is before the line of the K-th index
  3  wrong arguments, out of memory, or a failed read or write

With `--installed` each index is a status file of dpkg, of which only the installed
packages are read: those whose Status has `installed` as the last of three words,
and that have a version and an architecture. NUMBER counts these packages alone.
  debctl query --arch amd64 --installed bash /var/lib/dpkg/status

Example: is this build dependency met by this index?
  $ printf 'Package: gcc\\nVersion: 12.2\\nArchitecture: amd64\\n' > index
  $ debctl query --arch amd64 'gcc (>= 12), make' index; echo $?
  met gcc (>= 12)
   1 gcc 12.2 amd64
  unmet make
  1

Which packages have this name, or provide it?
  $ printf 'Provides: c-compiler\\n\\nPackage: tcc\\nVersion: 0.9\\n' >> index
  $ printf 'Architecture: amd64\\nProvides: c-compiler\\n' >> index
  $ debctl query --arch amd64 c-compiler index
  met c-compiler
   1 gcc 12.2 amd64
   2 tcc 0.9 amd64

Why does no package meet this group?
  $ debctl query --arch amd64 --why 'gcc (>= 13) | make' index; echo $?
  unmet gcc (>= 13) | make
   gcc (>= 13): 1 gcc 12.2 amd64 is earlier
   make: no package has this name
  1

Which packages of two indexes have this name?
  $ printf 'Package: gcc\\nVersion: 13.1\\nArchitecture: amd64\\n' > more
  $ debctl query --arch amd64 gcc index more
  met gcc
   1 gcc 12.2 amd64 @1
   3 gcc 13.1 amd64 @2";

pub(crate) const UNMET_HELP: &str = "\
Finds each group of dependencies in a file that no package of the indexes meets. It
tries Pre-Depends and Depends of binary packages; Build-Depends, Build-Depends-Arch
and Build-Depends-Indep of source packages. It prints one line for each such group, in
the order of the paragraphs, then of these fields, then of the groups' texts:
  unmet NUMBER PACKAGE VERSION ARCHITECTURE FIELD GROUP
  unsure NUMBER PACKAGE VERSION ARCHITECTURE FIELD GROUP
NUMBER is the position of the paragraph in the file, from 1. VERSION is canonical, or
with `--spelled` as the file spells it, which apt asks for. ARCHITECTURE is `source`
for a source package. `query` says when a package meets a group, and when a group is
ignored. The target architecture of a binary package is its own, or A if its own is
`all`; that of a source package is A. With `--all-for B` it is B if its own is `all`;
the qualifier `native` still means A.

Architecture wildcards aren't expanded. A wildcard in an architecture list, or another
name with a hyphen such as `linux-amd64`, may mean the target or not. `unsure` means
that the group is unmet in one of these readings, but not in another; `unmet` means
that it is unmet in each.

Each group is tried by itself: a package without a line may still not be installable,
because of what its dependencies depend on or conflict with.

The indexes are those of `--index`, in the order given, and then INDEX. A group is met
if a package of any of them meets it. Without PATH the file is INDEX, and nothing is
printed before all of it has been read.

With `--unless-in OLD` a group has a line only if the index OLD meets it, or it is
ignored there, however wildcards are read. The lines say what a change of the indexes
from OLD to these breaks.

With `--without` the binary packages with one of the names are left out of the indexes,
but not of OLD, and aren't tried. The numbers of the others don't change.

A source package is tried only if its Architecture has `any`, `all` or A, or is missing.
If it has none of these but a wildcard or another name with a hyphen, the package may
be built for A or not, and its lines are all `unsure`. With `--all-sources` every source
package is tried.

With `--installed` each index is a status file of dpkg, of which only the installed
packages are read; without PATH the lines are those of INDEX, and NUMBER counts its
installed packages alone.

Exit statuses:
  0  nothing is printed: each group is met or ignored
  1  a group is unmet or unsure
  2  an architecture, a profile or a file is refused: standard error has
     `line 0: 23 BadEnvironment`, `first: line N: CODE NAME` for INDEX or
     `second: line N: CODE NAME` for PATH. If there are several indexes, it has
     `index K: ` for the K-th instead of `first: `, and it has `old: ` for OLD.
     The lines of the paragraphs of PATH before the error are printed
  3  wrong arguments, out of memory, or a failed read or write

Example: which dependencies of this index does no package of it meet?
  $ printf 'Package: aa\\nVersion: 1\\nArchitecture: all\\nDepends: bb | cc, dd\\n' > index
  $ printf '\\nPackage: cc\\nVersion: 2\\nArchitecture: amd64\\n' >> index
  $ debctl unmet --arch amd64 index; echo $?
  unmet 1 aa 1 all Depends dd
  1

Which ones would no package meet any more if cc were removed?
  $ debctl unmet --arch amd64 --unless-in index --without cc index; echo $?
  unmet 1 aa 1 all Depends bb | cc
  1

Does a second index have what is missing?
  $ printf 'Package: dd\\nVersion: 1\\nArchitecture: all\\n' > more
  $ debctl unmet --arch amd64 --index more index; echo $?
  0";

pub(crate) const HEALTHY_HELP: &str = "\
Prints one line for each reason why a set of packages isn't consistent:
  unmet N P V A FIELD GROUP
  conflict N P V A FIELD GROUP by M P V A
  duplicate N P V A with M V A
Each package is printed as the number of its paragraph, from 1, its name, canonical
version and architecture. The order is that of the paragraphs, then of Pre-Depends,
Depends, Recommends, Conflicts and Breaks; duplicates are last.

`unmet`: no package of the set meets the group of Pre-Depends or Depends, or with
`--recommends` of Recommends. `query` says when a package meets a group.

`conflict`: the group of Conflicts or Breaks excludes the second package, because that
has or provides its name, in a version that meets its bound, if there is one. Without
a qualifier, or with `any`, a group speaks of packages of every architecture; with
`native` of those of A. No package excludes one of its own name.

`duplicate`: the second package has the same name and can't be installed together with
the first. Two of one name can only if both are `Multi-Arch: same`, of different
architectures and of equal versions. A package for `all` counts as one for A.

`unsure` is printed in place of `unmet` or `conflict` if the answer depends on how an
architecture list with a wildcard is read: see `debctl help unmet`.

With `--installed` the file is a status file of dpkg, and the set is its installed
packages. Their numbers count them alone. A package that is neither installed nor
removed, such as one that is half-configured, has a line in which N counts all
paragraphs, and `-` replaces what is missing:
  state N P V A STATUS

Nothing is printed before the whole file has been read.

Exit statuses:
  0  nothing is printed: the set is healthy
  1  a line is printed
  2  the architecture or the file is refused: standard error has
     `line 0: 23 BadEnvironment` or `line N: CODE NAME`, and nothing is printed
  3  wrong arguments, out of memory, or a failed read or write

Example:
  $ printf 'Package: aa\\nVersion: 1\\nArchitecture: all\\nDepends: bb\\n' > set
  $ printf 'Conflicts: mm\\n\\nPackage: cc\\nVersion: 2\\nArchitecture: amd64\\n' >> set
  $ printf 'Provides: mm\\n\\nPackage: aa\\nVersion: 3\\nArchitecture: all\\n' >> set
  $ debctl healthy --arch amd64 set; echo $?
  unmet 1 aa 1 all Depends bb
  conflict 1 aa 1 all Conflicts mm by 2 cc 2 amd64
  duplicate 1 aa 1 all with 3 3 all
  1";

pub(crate) const INSTALLABLE_HELP: &str = "\
Prints one line for each package of a file that can't be installed, in file order:
  uninstallable N P V A
  unsure N P V A
  undecided N P V A
The package is printed as its number, from 1, its name, canonical version and
architecture. A package without a line is installable. `--kind packages` is the default.

A package is installable if it is in a healthy set of packages of the file: in one for
which `debctl healthy` prints nothing. With `--recommends` a set has to meet the groups
of Recommends too. The order of unpacking, loops of Pre-Depends and clashes of files are
left out.

With `--essential` a set also has to contain, for each name that a listed package for A
or `all` marks Essential, a package of that name.

With `--without` the packages with one of the names, which commas separate, are left
out, as if they weren't listed: no set contains one, and they have no line. The numbers
stay those of the file.

`uninstallable`: no set that contains the package is healthy.

`unsure`: the answer depends on how an architecture list with a wildcard is read: see
`debctl help unmet`.

`undecided`: the search for a set took all of its steps. N of `--budget`, from 1 to
1000000000, is the most steps of the search for one package. All searches together take
at most N, and 100 for each package, and as many again to tell `uninstallable` from
`unsure`.

With `--installed` the file is a status file of dpkg, and its packages are the installed
ones. Their numbers count them alone.

With `--only` a line is printed only for packages with one of the names, which commas
separate.

With `--witness` it prints a healthy set that contains a package with one of the names:
a line ` N P V A` for each package of the set, in file order. The set is healthy however
architecture lists with wildcards are read. It is the set of the first package in the
file for which the search finds one. If it finds none, it prints the lines of `--only`.

With `--why` lines below each `uninstallable` line say why no set contains the package.
Each is true by itself, and they are enough:
   N P V A needs GROUP: 5901 6000     the numbers of all packages that meet the group
   N P V A needs GROUP: none          no package meets it
   N P V A needs NAME (Essential): 12 the same of an Essential name
   N P V A excludes M Q W B           no set contains both packages
   N P V A is left out                by `--without`
There are none if the search for them takes all of its steps.

With `--kind sources` or `--kind source` the lines are those of the source packages of
PATH that can't be built with the packages of INDEX. A is `source`, and N counts the
source packages. One can be built if a healthy set of packages of INDEX
- has build-essential, and what its Build-Depends, Build-Depends-Arch and
  Build-Depends-Indep need for A and the profiles;
- has no package that its Build-Conflicts, Build-Conflicts-Arch or
  Build-Conflicts-Indep excludes.
Each source package is asked by itself. `--installed` makes INDEX a status file.

Nothing is printed before all files have been read.

Exit statuses:
  0  nothing is printed: each package can be installed, or each source package built;
     with `--witness` a set is printed
  1  a line is printed; with `--witness` no set is found
  2  the architecture, a profile or a file is refused: standard error has
     `line 0: 23 BadEnvironment` or `line N: CODE NAME`, and nothing is printed. With
     source packages `first: ` is before that line for INDEX, and `second: ` for PATH
  3  wrong arguments, out of memory, or a failed read or write

Example:
  $ printf 'Package: aa\\nVersion: 1\\nArchitecture: all\\nDepends: bb, cc\\n' > index
  $ printf '\\nPackage: bb\\nVersion: 1\\nArchitecture: all\\nConflicts: cc\\n' >> index
  $ printf '\\nPackage: cc\\nVersion: 2\\nArchitecture: amd64\\n' >> index
  $ debctl installable --arch amd64 index; echo $?
  uninstallable 1 aa 1 all
  1
  $ debctl installable --arch amd64 --only bb,cc index; echo $?
  0

Why can't aa be installed?
  $ debctl installable --arch amd64 --why index; echo $?
  uninstallable 1 aa 1 all
   1 aa 1 all needs bb: 2
   1 aa 1 all needs cc: 3
   2 bb 1 all excludes 3 cc 2 amd64
  1

Which packages form a healthy set with dd?
  $ printf '\\nPackage: dd\\nVersion: 1\\nArchitecture: all\\nDepends: cc\\n' >> index
  $ debctl installable --arch amd64 --witness dd index; echo $?
   3 cc 2 amd64
   4 dd 1 all
  0

Which packages can't be installed once cc is removed?
  $ debctl installable --arch amd64 --without cc index; echo $?
  uninstallable 1 aa 1 all
  uninstallable 4 dd 1 all
  1

Which source packages can't be built?
  $ printf '\\nPackage: build-essential\\nVersion: 1\\nArchitecture: amd64\\n' >> index
  $ printf 'Package: ss\\nVersion: 2\\nBuild-Depends: bb, cc\\n' > sources
  $ printf '\\nPackage: tt\\nVersion: 2\\nBuild-Depends: bb | cc\\n' >> sources
  $ debctl installable --arch amd64 --kind sources --index index sources; echo $?
  uninstallable 1 ss 2 source
  1";

pub(crate) const LATEST_HELP: &str = "\
Writes the paragraph with the latest version of each package, over all files. It writes
the paragraphs byte for byte, in the order in which they are in the files, and an empty
line between two of them. If several have the latest version, it writes the first one.

Paragraphs of one name are of one package, or with `--by name,arch` those of one name
and one architecture. For source packages that is the same.

With `--before V` it considers only versions earlier than V, and writes nothing of a
package that has none.

It reads each file twice: first to check it, then to write from it. So it can't read
standard input, nor a path that isn't a regular file, such as a pipe. Nothing is written
before all files have been checked.

Exit statuses:
  0  the paragraphs are written
  2  V or a file is refused: standard error has `line 0: 18 BadVersion` for V, or
     `line N: CODE NAME` for the file. If there are several files, `index K: ` is
     before the line of the K-th one. Nothing is written
  3  wrong arguments, out of memory, a failed read or write, or a file that has
     another number of paragraphs the second time

Example:
  $ printf 'Package: aa\\nVersion: 1.9\\nArchitecture: all\\n' > one
  $ printf 'Package: aa\\nVersion: 1.10\\nArchitecture: all\\n' > other
  $ debctl latest one other
  Package: aa
  Version: 1.10
  Architecture: all

Which version is the latest before 1.10?
  $ debctl latest --before 1.10 one other
  Package: aa
  Version: 1.9
  Architecture: all";
